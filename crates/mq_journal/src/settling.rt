// The side of a queue is drained, and each refusal is answered.
ghost use Rattle.std.specs.Prelude.{◌<◌, ◌≡◌, IfErr, IfOk, OnOk};
ghost use Rattle.mq_turns.specs.AtDesk.{AtDesk, view, start_of};
ghost use Rattle.mq_turns.specs.Desk.{IsTurn, slot_of};
ghost use Rattle.mq_turns.specs.Lists.{Each};
ghost use Rattle.mq_turns.specs.declared.turn.Turn.TheVariants.{Side};
ghost use Rattle.mq_journal.specs.Draining.{RefusesDrain, report_of};
ghost use Rattle.mq_journal.specs.Numbers.{HoldsSide, IsReported, IsSomeKnown};
ghost use Rattle.mq_journal.specs.Sweeping.{HasSwept};
ghost use Rattle.mq_journal.specs.Settling.{IsSettled, WasSettled};

use crate::draining::{pass, report_of};
use crate::held::take_side;
use crate::machine::{Groups, JournalMachine};
use crate::reporting::report_side;
use mq_blocks::{QueueNo, TxNo};
use mq_drive::Port;
use mq_queue_side::{Cause, QueueSide};
use mq_turns::{Chair, Desk};
use std::sync::Wait;

// Drains a side that the chair holds, and gives it back.
fn settle_side<P: Port + Drop, G: Groups>(
    desk: &Desk<JournalMachine<P, G>>,
    chair: &mut Chair<JournalMachine<P, G>>,
    mut side: QueueSide<P, G::Entry>,
) -> Result<TxNo, Cause>
    requires at { AtDesk desk.now chair.old }
    requires side { HoldsSide P.state P.faults G.group (start_of desk.now) side.pmr.queue side
        (view chair.old) }
    requires known { IsSomeKnown P.state P.faults G.group (view chair.old) }
    ensures at { AtDesk desk.now chair.new }
    ensures settled { IsSettled P.state P.faults G.group (start_of desk.now) side
        (view chair.old) (view chair.new) result }
    ensures refused { IfErr result (λ c. IsReported P.state P.faults G.group (start_of desk.now)
        side.pmr.queue (report_of c) (view chair.old) (view chair.new)) }
{
    match side.drain() {
        Ok(done) => {
            pass(desk, chair, side, u64::MAX);
            Ok(done)
        }
        Err(cause) => {
            report_side(desk, chair, side, report_of(&cause));
            Err(cause)
        }
    }
}

/// Takes the side of a queue, completes until nothing is posted, stores and flushes the head past all that
/// is done, stores the queue's mark, and gives the side back. Returns the last number of the queue that is
/// done, or 0. Each failure is reported of the queue's port and returned. It takes no memory.
pub fn settle<R: Wait, P: Port + Drop, G: Groups>(
    rt: &R,
    desk: &Desk<JournalMachine<P, G>>,
    chair: &mut Chair<JournalMachine<P, G>>,
    queue: QueueNo,
) -> Result<TxNo, Cause>
    requires at { AtDesk desk.now chair.old }
    requires turn { IsTurn (start_of desk.now) (Side queue) }
    requires above { Each (λ h. h.0 < slot_of (start_of desk.now) (Side queue)) (view chair.old).held }
    ensures at { AtDesk desk.now chair.new }
    ensures settled { WasSettled P.state P.faults G.group queue (view chair.old) (view chair.new) result }
    ensures swept { OnOk result (HasSwept P.state P.faults G.group (view chair.old) (view chair.new)) }
    ensures refused { IfErr result (λ c. RefusesDrain queue c (view chair.old) (view chair.new)) }
{
    let side = take_side(rt, desk, chair, queue);
    settle_side(desk, chair, side)
}
