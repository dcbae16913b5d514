// The side of a queue that a session takes, and keeps in hand over several steps.
ghost use Rattle.std.specs.Prelude.{◌≡◌, ◌<◌, IfErr, OnOk, None};
ghost use Rattle.mq_desk_laws.specs.Rule.{shape_of};
ghost use Rattle.mq_turns.specs.AtDesk.{AtDesk, view, start_of};
ghost use Rattle.mq_turns.specs.Chairs.{giving};
ghost use Rattle.mq_turns.specs.Desk.{IsTurn, slot_of};
ghost use Rattle.mq_turns.specs.Lists.{Each};
ghost use Rattle.mq_turns.specs.declared.turn.Turn.TheVariants.{Side};
ghost use Rattle.mq_journal.specs.Draining.{report_of};
ghost use Rattle.mq_journal.specs.Held.{IsDrainOf, SameSide, TakesSide};
ghost use Rattle.mq_journal.specs.Numbers.{HoldsSide, IsResting, IsSomeKnown, ShowsReport, values};

use crate::machine::{Groups, JournalMachine};
use mq_blocks::QueueNo;
use mq_drive::Port;
use mq_queue_side::{Cause, QueueSide};
use mq_turns::{Chair, Desk, Item, Turn};
use std::sync::Wait;

/// Waits until the side of the queue is free, and takes it. Turns are taken in rising order of their slots:
/// the slot of a side comes after those of all pages, and of the sides of the queues before it.
pub fn take_side<R: Wait, P: Port + Drop, G: Groups>(
    rt: &R,
    desk: &Desk<JournalMachine<P, G>>,
    chair: &mut Chair<JournalMachine<P, G>>,
    queue: QueueNo,
) -> QueueSide<P, G::Entry>
    requires at { AtDesk desk.now chair.old }
    requires turn { IsTurn (start_of desk.now) (Side queue) }
    requires above { Each (λ h. h.0 < slot_of (start_of desk.now) (Side queue)) (view chair.old).held }
    ensures at { AtDesk desk.now chair.new }
    ensures took { TakesSide P.state P.faults G.group (start_of desk.now) queue result
        (view chair.old) (view chair.new) }
    ensures queue { result.pmr.queue ≡ queue }
    ensures geometry { result.pmr.geometry ≡ shape_of (values P.state P.faults G.group) G.group
        (start_of desk.now) }
    ensures side { HoldsSide P.state P.faults G.group (start_of desk.now) queue result (view chair.new) }
    ensures known { IsSomeKnown P.state P.faults G.group (view chair.new) }
{
    let item = desk.take(rt, chair, Turn::Side(queue));
    let Item::Side(side) = item else {
        unreachable!()
    };
    side
}

/// Gives back the side of a queue, on which nothing was drawn that is not sent. Nothing is reported of its
/// port.
pub fn give_back_side<P: Port + Drop, G: Groups>(
    desk: &Desk<JournalMachine<P, G>>,
    chair: &mut Chair<JournalMachine<P, G>>,
    side: QueueSide<P, G::Entry>,
)
    requires at { AtDesk desk.now chair.old }
    requires side { HoldsSide P.state P.faults G.group (start_of desk.now) side.pmr.queue side
        (view chair.old) }
    ensures at { AtDesk desk.now chair.new }
    ensures gave { view chair.new ≡ giving (slot_of (start_of desk.now) (Side side.pmr.queue))
        (view chair.old) }
{
    let queue = side.queue();
    desk.give_back(chair, Turn::Side(queue), Item::Side(side));
}

/// Completes until nothing is posted, and stores and flushes the head past all that is done. The session
/// keeps holding the side and makes no step on the desk; the contract alone needs desk and chair. So the
/// queue's mark is not stored, and a refusal is not reported. After `Off` the call may be made again.
pub fn drain_held<P: Port + Drop, G: Groups>(
    desk: &Desk<JournalMachine<P, G>>,
    chair: &Chair<JournalMachine<P, G>>,
    side: &mut QueueSide<P, G::Entry>,
) -> Result<(), Cause>
    requires at { AtDesk desk.now chair.now }
    requires side { HoldsSide P.state P.faults G.group (start_of desk.now) side.old.pmr.queue side.old
        (view chair.now) }
    requires known { IsSomeKnown P.state P.faults G.group (view chair.now) }
    ensures side { HoldsSide P.state P.faults G.group (start_of desk.now) side.old.pmr.queue side.new
        (view chair.now) }
    ensures parts { SameSide side.old side.new }
    ensures rests { OnOk result (IsResting P.state P.faults G.group side.new × (side.new.kept ≡ None)) }
    ensures drained { IsDrainOf P.state P.faults side.old side.new result }
    ensures shows { IfErr result (λ c. ShowsReport P.state P.faults G.group side.old.pmr.queue
        (report_of c) side.new (view chair.now)) }
{
    let _ = desk;
    let _ = chair;
    match side.drain() {
        Ok(_) => Ok(()),
        Err(cause) => Err(cause),
    }
}
