// A new desk: the table, the values that are laid on it, and the chairs.
ghost use Rattle.std.specs.Prelude.{◌≡◌, ℕ, suc, ◌+◌, ◌^◌, ◌<◌, ◌≤◌, [], Some, IfOk, IfErr, length, slice_get, vec_len, vec_capacity};
ghost use Rattle.mq_turns.specs.Meaning.{opened};
ghost use Rattle.mq_turns.specs.Desk.{slots, opening_of, laying, fresh, first_view};
ghost use Rattle.mq_turns.specs.Chairs.{Starts};
ghost use Rattle.mq_turns.specs.Opened.{AreOpenWords};
ghost use Rattle.mq_turns.specs.AtDesk.{AtDesk, view, start_of, chairs_of};

use crate::desk::{Chair, Desk};
use crate::machine::Machine;
use crate::plays::Cut;
use crate::rule::Start;
use crate::steps::{self, Place, Top};
use crate::turn::Item;
use atomic_table::Table;
use mq_blocks::{OutOfMemory, TxNo};
use std::alloc::Global;
use std::snapshot::Snapshot;

// Lays the sides, the last one first.
fn lay_sides<M: Machine>(top: &Top<M>, place: &mut Place<M>, pages: usize, mut sides: Vec<M::Side>)
    requires table { (place.old.table_id ≡ top.now.table_id)
        × (top.now.table_id.slots ≡ slots (opening_of top.now.key))
        × (top.now.table_id.slots < top.now.table_id.words) }
    requires turns { (pages ≡ length top.now.key.pages.value.items)
        × (sides.items ≡ top.now.key.sides.value.items) }
    requires starts { Starts M.meaning (opening_of top.now.key) }
    requires some { 0 < top.now.key.chairs }
    requires holds { place.old.me ≡ (
      laying (opening_of top.now.key) top.now.key.chairs 0
          (pages + vec_len sides),
      [],
    ) }
    ensures seat { (place.new.table_id ≡ place.old.table_id)
        × (place.new.me ≡ (laying (opening_of top.now.key) top.now.key.chairs 0 pages, [])) }
{
    M::obeys();
    while let Some(side) = sides.pop() {
        steps::give_back(top, place, pages + sides.len(), Item::Side(side));
    }
    sides.destroy_empty();
}

// Lays the pages, the last one first.
fn lay_pages<M: Machine>(top: &Top<M>, place: &mut Place<M>, mut pages: Vec<M::Page>)
    requires table { (place.old.table_id ≡ top.now.table_id)
        × (top.now.table_id.slots ≡ slots (opening_of top.now.key))
        × (top.now.table_id.slots < top.now.table_id.words) }
    requires turns { pages.items ≡ top.now.key.pages.value.items }
    requires starts { Starts M.meaning (opening_of top.now.key) }
    requires some { 0 < top.now.key.chairs }
    requires holds { place.old.me ≡ (
      laying (opening_of top.now.key) top.now.key.chairs 0
          (vec_len pages),
      [],
    ) }
    ensures seat { (place.new.table_id ≡ place.old.table_id)
        × (place.new.me ≡ (laying (opening_of top.now.key) top.now.key.chairs 0 0, [])) }
{
    M::obeys();
    while let Some(page) = pages.pop() {
        steps::give_back(top, place, pages.len(), Item::Page(page));
    }
    pages.destroy_empty();
}

// Lays all values, the root first.
fn lay_all<M: Machine>(
    top: &Top<M>,
    place: &mut Place<M>,
    pages: Vec<M::Page>,
    sides: Vec<M::Side>,
    root: M::Root,
)
    requires table { (place.old.table_id ≡ top.now.table_id)
        × (top.now.table_id.slots ≡ slots (opening_of top.now.key))
        × (top.now.table_id.slots < top.now.table_id.words) }
    requires turns { (pages.items ≡ top.now.key.pages.value.items)
        × (sides.items ≡ top.now.key.sides.value.items)
        × (root ≡ top.now.key.root.value) }
    requires few { (vec_len pages < 2 ^ 32) × (vec_len sides < 2 ^ 32) }
    requires starts { Starts M.meaning (opening_of top.now.key) }
    requires some { 0 < top.now.key.chairs }
    requires holds { place.old.me ≡ (first_view (opening_of top.now.key) top.now.key.chairs, []) }
    ensures seat { (place.new.table_id ≡ place.old.table_id)
        × (place.new.me ≡ (laying (opening_of top.now.key) top.now.key.chairs 0 0, [])) }
{
    M::obeys();
    let count = pages.len();
    steps::give_back(top, place, count + sides.len(), Item::Root(root));
    lay_sides(top, place, count, sides);
    lay_pages(top, place, pages);
}

// Sets the chairs, each with its place in the list.
fn seat_all<M: Machine>(top: &Top<M>, mut place: Place<M>, chairs: u32, list: &mut Vec<Chair<M>>)
    requires table { (place.table_id ≡ top.now.table_id)
        × (0 < top.now.table_id.words)
        × (list.old.items ≡ [])
        × (chairs ≤ vec_capacity list.old) }
    requires bare { (place.me ≡ (laying (opening_of top.now.key) chairs 0 0, [])) × (0 < chairs) }
    ensures all { vec_len list.new ≡ chairs }
    ensures each { (i : ℕ) (ch : _)
        → slice_get list.new.items i ≡ Some ch
        → (ch.place.table_id ≡ top.now.table_id) × (view ch ≡ fresh (opening_of top.now.key) i) }
{
    for _ in 1..chairs {
        list.push_reserved(Chair {
            place: top.split_seat::<Cut>(&mut place),
        });
    }
    list.push_reserved(Chair { place });
}

// The words of a new desk.
fn first_words(
    alloc: Global,
    slots: usize,
    sides: usize,
    base: u64,
) -> Result<Vec<u64>, OutOfMemory>
    requires few { (slots ≤ 2 ^ 33) × (sides < 2 ^ 32) }
    ensures words { IfOk result (λ ws. AreOpenWords slots sides base ws.items) }
{
    let mut words = vec![in alloc; u64::MAX; slots + sides + 2]?;
    for slot in 0..slots {
        words[slot] = 1;
    }
    words[slots] = base;
    words[slots + sides + 1] = base;
    Ok(words)
}

/// A desk that could not be made because memory ran out: the pages, sides and root come back.
type Unopened<M> = (
    Vec<<M as Machine>::Page>,
    Vec<<M as Machine>::Side>,
    <M as Machine>::Root,
    OutOfMemory,
);

impl<M: Machine> Desk<M> {
    /// A desk with these values, the counter at the base, and its chairs. All memory is taken before
    /// a value moves: a refusal hands the values back as they were.
    pub fn new(
        alloc: Global,
        pages: Vec<M::Page>,
        sides: Vec<M::Side>,
        root: M::Root,
        base: TxNo,
        chairs: u32,
    ) -> Result<(Desk<M>, Vec<Chair<M>>), Unopened<M>>
        requires chairs { 0 < chairs }
        requires base { base ≤ 2 ^ 62 }
        requires few { (vec_len pages < 2 ^ 32) × (vec_len sides < 2 ^ 32) }
        requires starts { Starts M.meaning (record { pages = pages.items; sides = sides.items; root = root; base = base }) }
        ensures desk { IfOk result (λ d. (start_of d.0 ≡ record { pages = pages.items; sides = sides.items; root = root; base = base })
            × (chairs_of d.0 ≡ chairs)) }
        ensures chairs { IfOk result (λ d. (vec_len d.1 ≡ chairs)
            × ((i : ℕ) (ch : _)
            → slice_get d.1.items i ≡ Some ch
            → AtDesk d.0 ch × (view ch ≡ fresh (start_of d.0) i))) }
        ensures err { IfErr result (λ e. (e.0 ≡ pages) × (e.1 ≡ sides) × (e.2 ≡ root)) }
    {
        let page_count = pages.len();
        let side_count = sides.len();
        let slots = page_count + side_count + 1;
        let Ok(words) = first_words(alloc, slots, side_count, base.0) else {
            return Err((pages, sides, root, OutOfMemory));
        };
        let Ok(mut list) = Vec::with_capacity(alloc, chairs as usize) else {
            return Err((pages, sides, root, OutOfMemory));
        };
        let start = Start {
            pages: Snapshot::of(&pages),
            sides: Snapshot::of(&sides),
            root: Snapshot::of(&root),
            base: base.0,
            chairs: u64::from(chairs),
        };
        let Ok((table, mut first)) = Table::vacant(alloc, words.as_slice(), slots, &start) else {
            list.destroy_empty();
            return Err((pages, sides, root, OutOfMemory));
        };
        lay_all(&table.shared, &mut first, pages, sides, root);
        seat_all(&table.shared, first, chairs, &mut list);
        let desk = Desk {
            table,
            pages: page_count as u32,
            sides: side_count as u32,
        };
        Ok((desk, list))
    }
}
