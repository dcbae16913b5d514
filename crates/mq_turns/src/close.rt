// The end of a desk: its chairs become one, and its values come out.
ghost use Rattle.std.specs.Prelude.{◌≡◌, ◌≢◌, ℕ, ◌+◌, ◌<◌, ◌≤◌, ◌++◌, [], true, false, IfOk, IfErr, All, map, length, vec_len, vec_capacity, slice_index_or};
ghost use Rattle.std.specs.Slots.{slots_items, slots_filled, slots_len, IsFull};
ghost use Rattle.mq_blocks.specs.Totals.{total};
ghost use Rattle.mq_turns.specs.Lists.{Each};
ghost use Rattle.mq_turns.specs.Desk.{drawn_of, read_of, charged_of, IsInOrder};
ghost use Rattle.mq_turns.specs.Chairs.{DeskEnded};
ghost use Rattle.mq_turns.specs.Closing.{HasPages, HasSides, HasRoot, ArePages, AreSides, IsRoot};
ghost use Rattle.mq_turns.specs.AtDesk.{AtDesk, view, start_of, chairs_of};

use crate::desk::{Chair, Desk};
use crate::machine::Machine;
use crate::plays::Glue;
use crate::steps::{self, Place, Top};
use crate::turn::Item;
use atomic_table::Closed;
use mq_blocks::{OutOfMemory, TxNo};
use std::alloc::Global;

/// What a desk had when it ended: the pages by block, the sides by queue, and the root.
#[derive(Drop)]
pub struct Parts<M: Machine> {
    pub pages: Vec<M::Page>,
    pub sides: Vec<M::Side>,
    pub root: M::Root,
    /// The last number drawn, or the base at the opening.
    pub next: TxNo,
    /// The base, as the last `raise` left it.
    pub base: TxNo,
}

// Joins the chairs in. Each looks once more: what it drew and read is in order by itself.
fn join_all<M: Machine>(
    top: &Top<M>,
    place: &mut Place<M>,
    counter: usize,
    mut chairs: Vec<Chair<M>>,
)
    requires counter { (counter ≡ top.now.table_id.slots) × (counter < top.now.table_id.words) }
    requires table { (place.old.table_id ≡ top.now.table_id)
        × (place.old.me.1 ≡ [])
        × (place.old.me.0.held ≡ [])
        × (0 < place.old.me.0.parts) }
    requires theirs { All (λ ch. (ch.place.table_id ≡ top.now.table_id)
        × ((view ch).held ≡ [])) chairs.items }
    ensures seat { (place.new.table_id ≡ place.old.table_id)
        × (place.new.id ≡ place.old.id)
        × (place.new.me.1 ≡ [])
        × (place.new.me.0.held ≡ []) }
    ensures order { Each (IsInOrder M.meaning) (map (λ ch. view ch) chairs.items) }
    ensures parts { place.new.me.0.parts ≡ place.old.me.0.parts + total (λ v. v.parts)
        (map (λ ch. view ch) chairs.items) }
    ensures all { (place.new.me.0.drawn ≡ place.old.me.0.drawn ++ drawn_of
        (map (λ ch. view ch) chairs.items))
        × (place.new.me.0.read ≡ place.old.me.0.read ++ read_of (map (λ ch. view ch) chairs.items)) }
    ensures charged { place.new.me.0.reading.charged ≡ place.old.me.0.reading.charged ++ charged_of
        (map (λ ch. view ch) chairs.items) }
    ensures done { (place.old.me.0.reading.done ≤ place.new.me.0.reading.done)
        × Each (λ v. v.reading.done ≤ place.new.me.0.reading.done) (map (λ ch. view ch) chairs.items) }
    ensures based { (place.old.me.0.reading.base ≤ place.new.me.0.reading.base)
        × Each (λ v. v.reading.base ≤ place.new.me.0.reading.base) (map (λ ch. view ch) chairs.items) }
    ensures seen { (place.old.me.0.seen ≤ place.new.me.0.seen)
        × Each (λ v. v.seen ≤ place.new.me.0.seen) (map (λ ch. view ch) chairs.items) }
{
    while let Some(Chair { place: mut other }) = chairs.pop() {
        steps::count(top, &mut other, counter);
        top.join_seat::<Glue>(place, other);
    }
    chairs.destroy_empty();
}

// Makes one seat of all chairs.
fn gather<M: Machine>(top: &Top<M>, counter: usize, mut chairs: Vec<Chair<M>>) -> Place<M>
    requires counter { (counter ≡ top.now.table_id.slots) × (counter < top.now.table_id.words) }
    requires theirs { All (λ ch. (ch.place.table_id ≡ top.now.table_id)
        × ((view ch).held ≡ [])) chairs.items }
    requires some { 0 < length chairs.items }
    ensures seat { (result.table_id ≡ top.now.table_id) × (result.me.1 ≡ []) × (result.me.0.held ≡ []) }
    ensures parts { result.me.0.parts ≡ length chairs.items }
    ensures all { (result.me.0.drawn ≡ drawn_of (map (λ ch. view ch) chairs.items))
        × (result.me.0.read ≡ read_of (map (λ ch. view ch) chairs.items)) }
    ensures charged { result.me.0.reading.charged ≡ charged_of (map (λ ch. view ch) chairs.items) }
    ensures done { Each (λ v. v.reading.done ≤ result.me.0.reading.done) (map (λ ch. view ch) chairs.items) }
    ensures based { Each (λ v. v.reading.base ≤ result.me.0.reading.base) (map (λ ch. view ch) chairs.items) }
    ensures seen { Each (λ v. v.seen ≤ result.me.0.seen) (map (λ ch. view ch) chairs.items) }
    ensures order { Each (IsInOrder M.meaning) (map (λ ch. view ch) chairs.items) }
{
    let Some(Chair { place: mut one }) = chairs.pop() else {
        unreachable!()
    };
    steps::count(top, &mut one, counter);
    join_all(top, &mut one, counter, chairs);
    one
}

// Takes the pages out, which lie first.
fn unload_pages<M: Machine>(
    closed: &mut Closed<Option<Item<M>>, Global>,
    count: usize,
    mut pages: Vec<M::Page>,
) -> Vec<M::Page>
    requires room { (pages.items ≡ []) × (count ≤ vec_capacity pages) × (count < slots_len closed.old.slots) }
    requires full { (j : ℕ)
        → j < slots_len closed.old.slots
        → slice_index_or (slots_filled closed.old.slots) j false ≡ true }
    requires home { HasPages count (slots_items closed.old.slots) }
    ensures same { (slots_items closed.new.slots ≡ slots_items closed.old.slots)
        × (slots_len closed.new.slots ≡ slots_len closed.old.slots)
        × (closed.new.words ≡ closed.old.words) }
    ensures left { (j : ℕ)
        → count ≤ j
        → j < slots_len closed.old.slots
        → slice_index_or (slots_filled closed.new.slots) j false ≡ true }
    ensures gone { (j : ℕ) → j < count → slice_index_or (slots_filled closed.new.slots) j false ≡ false }
    ensures pages { (vec_len result ≡ count) × ArePages (slots_items closed.old.slots) result.items }
{
    for k in 0..count {
        let slot = closed.take(k);
        let Some(item) = slot else { unreachable!() };
        let Item::Page(page) = item else {
            unreachable!()
        };
        pages.push_reserved(page);
    }
    pages
}

// Takes the sides out, which lie after the pages.
fn unload_sides<M: Machine>(
    closed: &mut Closed<Option<Item<M>>, Global>,
    pages: usize,
    count: usize,
    mut sides: Vec<M::Side>,
) -> Vec<M::Side>
    requires room { (sides.items ≡ [])
        × (count ≤ vec_capacity sides)
        × (pages + count < slots_len closed.old.slots) }
    requires full { (j : ℕ)
        → pages ≤ j
        → j < slots_len closed.old.slots
        → slice_index_or (slots_filled closed.old.slots) j false ≡ true }
    requires empty { (j : ℕ) → j < pages → slice_index_or (slots_filled closed.old.slots) j false ≡ false }
    requires home { HasSides pages count (slots_items closed.old.slots) }
    ensures same { (slots_items closed.new.slots ≡ slots_items closed.old.slots)
        × (slots_len closed.new.slots ≡ slots_len closed.old.slots)
        × (closed.new.words ≡ closed.old.words) }
    ensures left { (j : ℕ)
        → pages + count ≤ j
        → j < slots_len closed.old.slots
        → slice_index_or (slots_filled closed.new.slots) j false ≡ true }
    ensures gone { (j : ℕ)
        → j < pages + count
        → slice_index_or (slots_filled closed.new.slots) j false ≡ false }
    ensures sides { (vec_len result ≡ count) × AreSides pages (slots_items closed.old.slots) result.items }
{
    for k in 0..count {
        let slot = closed.take(pages + k);
        let Some(item) = slot else { unreachable!() };
        let Item::Side(side) = item else {
            unreachable!()
        };
        sides.push_reserved(side);
    }
    sides
}

// Takes the root out, which lies last and alone, and frees the table.
fn unload_root<M: Machine>(mut closed: Closed<Option<Item<M>>, Global>, last: usize) -> M::Root
    requires count { slots_len closed.slots ≡ last + 1 }
    requires full { slice_index_or (slots_filled closed.slots) last false ≡ true }
    requires empty { (j : ℕ) → j < last → slice_index_or (slots_filled closed.slots) j false ≡ false }
    requires home { HasRoot last (slots_items closed.slots) }
    ensures root { IsRoot last (slots_items closed.slots) result }
{
    let slot = closed.take(last);
    let Some(Item::Root(root)) = slot else {
        unreachable!()
    };
    closed.free();
    root
}

/// A desk that could not be ended because memory ran out, with its chairs, as they were.
type Unended<M> = (Desk<M>, Vec<Chair<M>>, OutOfMemory);

impl<M: Machine> Desk<M> {
    /// Ends a desk, all of whose chairs hold nothing. All memory is taken first, so that a refusal
    /// leaves everything as it was.
    pub fn into_parts(self, alloc: Global, chairs: Vec<Chair<M>>) -> Result<Parts<M>, Unended<M>>
        requires theirs { All (λ ch. AtDesk self ch × ((view ch).held ≡ [])) chairs.items }
        requires all { length chairs.items ≡ chairs_of self }
        ensures ok { IfOk result (λ p. DeskEnded M.meaning (start_of self)
            (map (λ ch. view ch) chairs.items) p.pages.items p.sides.items p.root p.next p.base) }
        ensures err { IfErr result (λ e. (e.0 ≡ self) × (e.1 ≡ chairs)) }
    {
        let Ok(pages) = Vec::with_capacity(alloc, self.pages as usize) else {
            return Err((self, chairs, OutOfMemory));
        };
        let Ok(sides) = Vec::with_capacity(alloc, self.sides as usize) else {
            pages.destroy_empty();
            return Err((self, chairs, OutOfMemory));
        };
        let one = gather(&self.table.shared, self.table.slot_count(), chairs);
        let page_count = self.pages as usize;
        let side_count = self.sides as usize;
        let Desk { table, .. } = self;
        let mut closed = table.close_with(one);
        let last = page_count + side_count;
        let next = closed.word(last + 1);
        let base = closed.word(last + side_count + 2);
        let pages = unload_pages(&mut closed, page_count, pages);
        let sides = unload_sides(&mut closed, page_count, side_count, sides);
        let root = unload_root(closed, last);
        Ok(Parts {
            pages,
            sides,
            root,
            next: TxNo(next),
            base: TxNo(base),
        })
    }
}
