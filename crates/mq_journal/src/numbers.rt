// A number is drawn for a group.
ghost use Rattle.std.specs.Prelude.{◌≡◌, ◌<◌, None, length, vec_len, vec_capacity};
ghost use Rattle.mq_revoke.specs.Guard.{placed_of};
ghost use Rattle.mq_queue_side.specs.Commits.{commit_of_tx};
ghost use Rattle.mq_turns.specs.AtDesk.{AtDesk, view, start_of, chairs_of};
ghost use Rattle.mq_turns.specs.Desk.{Follows, IsInOrder, allotment};
ghost use Rattle.mq_journal.specs.Machine.{journal};
ghost use Rattle.mq_journal.specs.Numbers.{Draws, HasPlace, HoldsSide, Marks, MayCome};

use crate::machine::{Groups, JournalMachine};
use mq_drive::Port;
use mq_queue_side::{Numbered, Prepared, QueueSide};
use mq_turns::{Chair, Desk};

// Looks, and stores the queue's mark where nothing of the queue is undone, so that the mark is not above
// the next number. Where something is undone, the mark is at or below it.
fn mark_next<'e, P: Port + Drop, G: Groups>(
    desk: &Desk<JournalMachine<P, G>>,
    chair: &mut Chair<JournalMachine<P, G>>,
    side: &QueueSide<P, G::Entry>,
    _entry: &'e G::Entry,
)
    requires at { AtDesk desk.now chair.old }
    requires side { HoldsSide P.state P.faults G.group (start_of desk.now) side.now.pmr.queue side.now
        (view chair.old) }
    requires none { side.now.kept ≡ None }
    ensures at { AtDesk desk.now chair.new }
    ensures marks { Marks P.state P.faults G.group (start_of desk.now) side.now.pmr.queue side.now
        (view chair.old) (view chair.new) }
{
    let none: Option<&'e G::Entry> = None;
    let last = desk.look(chair, none);
    if !side.is_at_rest() {
        return;
    }
    desk.clear(chair, side.queue(), last.0 + 1);
}

/// Draws the next number for a group whose commit is prepared, and notes it in the side of its queue, which
/// the chair holds. Reads the newest number, stores the queue's mark if nothing of the queue is undone,
/// draws, stores the entry and fills the descriptor. It takes no memory and never refuses. The pages may be
/// given back at once; the side may be given back once the commit is sent, or its send was cut.
pub fn number<P: Port + Drop, G: Groups>(
    desk: &Desk<JournalMachine<P, G>>,
    chair: &mut Chair<JournalMachine<P, G>>,
    side: &mut QueueSide<P, G::Entry>,
    prepared: Prepared,
    entry: G::Entry,
) -> Numbered
    requires at { AtDesk desk.now chair.old }
    requires queue { (G.group.tx entry).queue ≡ side.old.pmr.queue }
    requires side { HoldsSide P.state P.faults G.group (start_of desk.now) side.old.pmr.queue side.old
        (view chair.old) }
    requires none { side.old.kept ≡ None }
    requires may { MayCome P.state P.faults G.group (start_of desk.now) side.old.pmr.queue entry
        (view chair.old) }
    requires follows { Follows (journal P.state P.faults G.group) entry (view chair.old) }
    requires room { length (view chair.old).drawn < allotment (chairs_of desk.now) }
    requires tells { prepared ≡ commit_of_tx (G.group.tx entry) }
    requires place { HasPlace P.state P.faults G.group side.old (view chair.old)
        (placed_of (G.group.tx entry)) }
    requires reserved { vec_len side.old.stored < vec_capacity side.old.stored }
    ensures at { AtDesk desk.now chair.new }
    ensures draws { Draws P.state P.faults G.group (start_of desk.now) side.old.pmr.queue entry
        (view chair.old) (view chair.new) side.new result }
    ensures order { IsInOrder (journal P.state P.faults G.group) (view chair.new) }
    ensures pmr { side.new.pmr ≡ side.old.pmr }
    ensures done { side.new.done ≡ side.old.done }
    ensures kept { side.new.kept ≡ None }
{
    mark_next(desk, chair, side, &entry);
    let number = desk.draw(chair, side.queue(), &entry);
    side.numbered(prepared, number, entry)
}
