// The numbers of notices that two have taken, in the order of their indexes.
ghost use Rattle.std.specs.Prelude.{◌≡◌, ◌+◌, ◌<◌, ◌≤◌, ℕ, List, Option, [], ◌∷◌, ◌++◌, drop, length, vec_capacity};
ghost use Rattle.mq_notices.specs.Merging.{IsNext, has_head};
ghost use Rattle.mq_notices.specs.Notices.{Merged, notices_from, numbers_in, with_number};

use crate::notice::Notice;
use mq_blocks::TxNo;

// Whether the notice at the place has this index.
fn has(notices: &[Notice], at: usize, index: u64) -> bool
    ensures { result ≡ has_head index (drop at notices.now) }
{
    if at < notices.len() {
        notices[at].index == index
    } else {
        false
    }
}

// The notice with this index, which is the next of one of the two. That place goes on.
fn next(mine: &[Notice], theirs: &[Notice], a: &mut usize, b: &mut usize, index: u64) -> Notice
    requires within { (a.old ≤ length mine.now) × (b.old ≤ length theirs.now) }
    requires some { (x : Option ℕ) × (xs : List (Option ℕ))
        × Merged (drop a.old mine.now) (drop b.old theirs.now) (notices_from index (x ∷ xs)) }
    ensures { IsNext mine.now theirs.now a.old b.old a.new b.new index result }
{
    if has(mine, *a, index) {
        let notice = mine[*a];
        *a += 1;
        return notice;
    }
    let notice = theirs[*b];
    *b += 1;
    notice
}

// Adds the number of a notice, if it has one.
fn note(into: &mut Vec<TxNo>, notice: Notice)
    requires { length into.old.items < vec_capacity into.old }
    ensures numbers { into.new.items ≡ into.old.items ++ with_number notice.number [] }
    ensures length { length into.new.items ≤ length into.old.items + 1 }
    ensures room { vec_capacity into.new ≡ vec_capacity into.old }
{
    if let Some(number) = notice.number {
        into.push_reserved(number);
    }
}

/// The numbers of all notices that the two have taken, in the order of their indexes.
pub(crate) fn merge(into: Vec<TxNo>, mine: &[Notice], theirs: &[Notice]) -> Vec<TxNo>
    requires none { into.items ≡ [] }
    requires room { length mine.now + length theirs.now ≤ vec_capacity into }
    requires some { (pushed : List (Option ℕ)) × Merged mine.now theirs.now (notices_from 0 pushed) }
    ensures { (pushed : List (Option ℕ)) → Merged mine.now theirs.now (notices_from 0 pushed)
        → result.items ≡ numbers_in pushed }
{
    let mut into = into;
    let mut a = 0;
    let mut b = 0;
    for index in 0..mine.len() + theirs.len() {
        let notice = next(mine, theirs, &mut a, &mut b, index as u64);
        note(&mut into, notice);
    }
    into
}
