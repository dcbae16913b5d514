// The steps on the other words: the queues' marks and the base; and notices.
ghost use Rattle.std.specs.Prelude.{◌≡◌, suc, ◌+◌, ◌-◌, ◌<◌, ◌≤◌, Some, length};
ghost use Rattle.mq_turns.specs.Lists.{times};
ghost use Rattle.mq_turns.specs.Marks.{mark_of};
ghost use Rattle.mq_turns.specs.Words.{after_peek, after_clear, after_base, after_raise, after_notice, MayClear, MayRaise, MayNote};
ghost use Rattle.mq_turns.specs.Desk.{slots, slot_of, opening_of, Sees};
ghost use Rattle.mq_turns.specs.declared.rule.Known.{Known};
ghost use Rattle.mq_turns.specs.declared.rule.Notice.TheVariants as notice;
ghost use Rattle.mq_turns.specs.declared.turn.Turn.TheVariants.{Side, Root};

use crate::machine::Machine;
use crate::plays::{Clear, Notifies, Notify, Peek, Raise, ReadBase};
use crate::rule::Charge;
use crate::steps::{Place, Top};
use mq_blocks::{BlockNo, TxNo};

/// Reads the mark of a queue.
pub(crate) fn peek<M: Machine>(top: &Top<M>, place: &mut Place<M>, word: usize) -> u64
    requires table { (place.old.table_id ≡ top.now.table_id)
        × (word < top.now.table_id.words)
        × (0 < place.old.me.0.parts) }
    requires mark { (top.now.table_id.slots < word)
        × (word < suc (top.now.table_id.slots + length (opening_of top.now.key).sides)) }
    ensures seat { (place.new.table_id ≡ place.old.table_id) × (place.new.id ≡ place.old.id) }
    ensures peeked { (K : Known M.Page M.Side M.Root M.Entry)
        × (place.new.me ≡ (
          after_peek
              (word - suc top.now.table_id.slots) result K place.old.me.0,
          place.old.me.1,
        ))
        × (mark_of (word - suc top.now.table_id.slots) K.claims ≡ result)
        × Sees M.meaning place.old.me.0 K }
{
    top.load::<Peek<M>>(place, word)
}

/// Stores the mark of a queue.
pub(crate) fn clear<M: Machine>(top: &Top<M>, place: &mut Place<M>, word: usize, low: u64)
    requires table { (place.old.table_id ≡ top.now.table_id)
        × (word < top.now.table_id.words)
        × (0 < place.old.me.0.parts)
        × (top.now.table_id.slots ≡ slots (opening_of top.now.key)) }
    requires mark { (top.now.table_id.slots < word)
        × (word < suc (top.now.table_id.slots + length (opening_of top.now.key).sides)) }
    requires holds { 0 < times (slot_of (opening_of top.now.key)
        (Side (word - suc top.now.table_id.slots))) place.old.me.0.held }
    requires may { (1 ≤ low) × MayClear M.meaning (word - suc top.now.table_id.slots) low place.old.me.0 }
    ensures seat { (place.new.table_id ≡ place.old.table_id) × (place.new.id ≡ place.old.id) }
    ensures cleared { (K : Known M.Page M.Side M.Root M.Entry)
        × (place.new.me ≡ (
          after_clear
              (word - suc top.now.table_id.slots) low K place.old.me.0,
          place.old.me.1,
        ))
        × Sees M.meaning place.old.me.0 K }
{
    M::obeys();
    top.store::<Clear<M>>(place, word, low);
}

/// Reads the base.
pub(crate) fn base<M: Machine>(top: &Top<M>, place: &mut Place<M>, word: usize) -> u64
    requires table { (place.old.table_id ≡ top.now.table_id)
        × (word < top.now.table_id.words)
        × (0 < place.old.me.0.parts)
        × (word ≡ suc (top.now.table_id.slots + length (opening_of top.now.key).sides)) }
    ensures seat { (place.new.table_id ≡ place.old.table_id) × (place.new.id ≡ place.old.id) }
    ensures based { (K : Known M.Page M.Side M.Root M.Entry)
        × (place.new.me ≡ (after_base result place.old.me.0, place.old.me.1))
        × (K.word ≡ result)
        × Sees M.meaning place.old.me.0 K }
{
    top.load::<ReadBase<M>>(place, word)
}

/// Stores the base.
pub(crate) fn raise<M: Machine>(top: &Top<M>, place: &mut Place<M>, word: usize, new: u64)
    requires table { (place.old.table_id ≡ top.now.table_id)
        × (word < top.now.table_id.words)
        × (0 < place.old.me.0.parts)
        × (word ≡ suc (top.now.table_id.slots + length (opening_of top.now.key).sides))
        × (top.now.table_id.slots ≡ slots (opening_of top.now.key)) }
    requires holds { 0 < times (slot_of (opening_of top.now.key) Root) place.old.me.0.held }
    requires may { MayRaise M.meaning new place.old.me.0 }
    ensures seat { (place.new.table_id ≡ place.old.table_id) × (place.new.id ≡ place.old.id) }
    ensures raised { (K : Known M.Page M.Side M.Root M.Entry)
        × (place.new.me ≡ (after_raise new K place.old.me.0, place.old.me.1))
        × Sees M.meaning place.old.me.0 K }
{
    M::obeys();
    top.store::<Raise<M>>(place, word, new);
}

/// Notes that a home write of the block ended, with the content of the number. Each call chooses the
/// notice.
pub(crate) fn note_home<M: Machine, N: Notifies<M::Page>>(
    top: &Top<M>,
    place: &mut Place<M>,
    word: usize,
    block: BlockNo,
    number: TxNo,
)
    requires table { (place.old.table_id ≡ top.now.table_id)
        × (word < top.now.table_id.words)
        × (0 < place.old.me.0.parts)
        × (top.now.table_id.slots ≡ slots (opening_of top.now.key)) }
    requires may { MayNote M.meaning (notice.Home block number) place.old.me.0 }
    requires notice { N.notice ≡ Some (notice.Home block number) }
    ensures seat { (place.new.table_id ≡ place.old.table_id) × (place.new.id ≡ place.old.id) }
    ensures noted { (K : Known M.Page M.Side M.Root M.Entry)
        × (place.new.me ≡ (
          after_notice M.meaning
              (notice.Home block number) K place.old.me.0,
          place.old.me.1,
        ))
        × Sees M.meaning place.old.me.0 K }
{
    let _ = block;
    let _ = number;
    M::obeys();
    top.load::<Notify<M, N>>(place, word);
}

/// Notes the state of the page. Each call chooses the notice.
pub(crate) fn note_page<M: Machine, N: Notifies<M::Page>>(
    top: &Top<M>,
    place: &mut Place<M>,
    word: usize,
    block: BlockNo,
    page: &M::Page,
)
    requires table { (place.old.table_id ≡ top.now.table_id)
        × (word < top.now.table_id.words)
        × (0 < place.old.me.0.parts)
        × (top.now.table_id.slots ≡ slots (opening_of top.now.key)) }
    requires may { MayNote M.meaning (notice.Page block page.now) place.old.me.0 }
    requires notice { N.notice ≡ Some (notice.Page block page.now) }
    ensures seat { (place.new.table_id ≡ place.old.table_id) × (place.new.id ≡ place.old.id) }
    ensures noted { (K : Known M.Page M.Side M.Root M.Entry)
        × (place.new.me ≡ (
          after_notice M.meaning
              (notice.Page block page.now) K place.old.me.0,
          place.old.me.1,
        ))
        × Sees M.meaning place.old.me.0 K }
{
    let _ = block;
    let _ = page;
    M::obeys();
    top.load::<Notify<M, N>>(place, word);
}

/// Keeps a front that the chair has read. Each call chooses the notice.
pub(crate) fn note_front<M: Machine, N: Notifies<M::Page>>(
    top: &Top<M>,
    place: &mut Place<M>,
    word: usize,
    front: TxNo,
)
    requires table { (place.old.table_id ≡ top.now.table_id)
        × (word < top.now.table_id.words)
        × (0 < place.old.me.0.parts)
        × (top.now.table_id.slots ≡ slots (opening_of top.now.key)) }
    requires may { MayNote M.meaning (notice.Front front) place.old.me.0 }
    requires notice { N.notice ≡ Some (notice.Front front) }
    ensures seat { (place.new.table_id ≡ place.old.table_id) × (place.new.id ≡ place.old.id) }
    ensures noted { (K : Known M.Page M.Side M.Root M.Entry)
        × (place.new.me ≡ (
          after_notice M.meaning
              (notice.Front front) K place.old.me.0,
          place.old.me.1,
        ))
        × Sees M.meaning place.old.me.0 K }
{
    let _ = front;
    M::obeys();
    top.load::<Notify<M, N>>(place, word);
}

/// Enters a report of a port in its account. Each call chooses the notice.
pub(crate) fn charge<M: Machine, N: Notifies<M::Page>>(
    top: &Top<M>,
    place: &mut Place<M>,
    word: usize,
    charge: &Charge,
)
    requires table { (place.old.table_id ≡ top.now.table_id)
        × (word < top.now.table_id.words)
        × (0 < place.old.me.0.parts)
        × (top.now.table_id.slots ≡ slots (opening_of top.now.key)) }
    requires may { MayNote M.meaning (notice.Charge charge.now) place.old.me.0 }
    requires notice { N.notice ≡ Some (notice.Charge charge.now) }
    ensures seat { (place.new.table_id ≡ place.old.table_id) × (place.new.id ≡ place.old.id) }
    ensures noted { (K : Known M.Page M.Side M.Root M.Entry)
        × (place.new.me ≡ (
          after_notice M.meaning
              (notice.Charge charge.now) K place.old.me.0,
          place.old.me.1,
        ))
        × Sees M.meaning place.old.me.0 K }
{
    let _ = charge;
    M::obeys();
    top.load::<Notify<M, N>>(place, word);
}
