// The side of a queue is drained.
ghost use Rattle.std.specs.Prelude.{◌<◌, ◌≤◌, ◌-◌, ◌^◌, ◌≡◌, ℕ, IfErr, OnOk, Err, None, Some};
ghost use Rattle.mq_turns.specs.AtDesk.{AtDesk, view, start_of};
ghost use Rattle.mq_turns.specs.Desk.{IsTurn, slot_of};
ghost use Rattle.mq_turns.specs.Lists.{Each, times};
ghost use Rattle.mq_turns.specs.declared.turn.Turn.TheVariants.{Side};
ghost use Rattle.mq_journal.specs.Draining.{IsAnswered, IsPassed, RefusesDrain, ShowsBelow, WasDrained, answer_upto, mark_after, named_above, report_of, status_of};
ghost use Rattle.mq_journal.specs.Numbers.{HoldsSide, IsReported, IsSomeKnown, ShowsReport};

use crate::machine::{Groups, JournalMachine};
use crate::reporting::report_side;
use mq_blocks::{QueueNo, TxNo};
use mq_drive::Port;
use mq_queue_side::{Cause, QueueSide, Why};
use mq_turns::{Chair, Desk, Item, Report, Turn};
use std::sync::Wait;

// The status of a command that failed, where the send was not cut.
fn status_of(why: Why) -> Option<u16>
    ensures { result ≡ status_of why }
{
    match why {
        Why::Off => None,
        Why::Status(status) => Some(status),
    }
}

/// A refusal, as it is reported of the port.
pub fn report_of(cause: &Cause) -> Report
    ensures { result ≡ report_of cause.now }
{
    match *cause {
        Cause::Off => Report::Off,
        Cause::Failed { tx, status } => Report::Failed { tx, status },
        Cause::FailedHome { block, status } => Report::FailedHome { block, status },
        Cause::Stopped { tx, why } => Report::Stopped {
            tx,
            status: status_of(why),
        },
    }
}

// The number that a failure names, where it is a greater one.
fn named_above(cause: &Cause, at: TxNo) -> Option<TxNo>
    ensures { result ≡ named_above at cause.now }
{
    let tx = match *cause {
        Cause::Failed { tx, status: _ } => tx,
        Cause::Stopped { tx, why: _ } => tx,
        Cause::Off => return None,
        Cause::FailedHome {
            block: _,
            status: _,
        } => return None,
    };
    if tx <= at { None } else { Some(tx) }
}

// Stores the queue's mark, below which all of the queue is done, and gives the side back.
pub(crate) fn pass<P: Port + Drop, G: Groups>(
    desk: &Desk<JournalMachine<P, G>>,
    chair: &mut Chair<JournalMachine<P, G>>,
    side: QueueSide<P, G::Entry>,
    low: u64,
)
    requires at { AtDesk desk.now chair.old }
    requires turn { IsTurn (start_of desk.now) (Side side.pmr.queue) }
    requires holds { 0 < times (slot_of (start_of desk.now) (Side side.pmr.queue)) (view chair.old).held }
    requires low { 1 ≤ low }
    requires shows { ShowsBelow P.state P.faults G.group side.pmr.queue low side (view chair.old) }
    ensures at { AtDesk desk.now chair.new }
    ensures passed { IsPassed P.state P.faults G.group (start_of desk.now) side.pmr.queue low
        (view chair.old) (view chair.new) }
{
    let queue = side.queue();
    desk.clear(chair, queue, low);
    desk.give_back(chair, Turn::Side(queue), Item::Side(side));
}

// Answers the failure of a drain, or passes it over where its number is a greater one; and gives the side
// back.
fn stop<P: Port + Drop, G: Groups>(
    desk: &Desk<JournalMachine<P, G>>,
    chair: &mut Chair<JournalMachine<P, G>>,
    side: QueueSide<P, G::Entry>,
    at: TxNo,
    cause: Cause,
) -> Result<(), Cause>
    requires at { AtDesk desk.now chair.old }
    requires turn { IsTurn (start_of desk.now) (Side side.pmr.queue) }
    requires holds { 0 < times (slot_of (start_of desk.now) (Side side.pmr.queue)) (view chair.old).held }
    requires low { (n : ℕ) → named_above at cause ≡ Some n → 1 ≤ n }
    requires below { (n : ℕ)
        → named_above at cause ≡ Some n
        → ShowsBelow P.state P.faults G.group side.pmr.queue n side (view chair.old) }
    requires shows { named_above at cause ≡ None
        → ShowsReport P.state P.faults G.group side.pmr.queue (report_of cause) side (view chair.old) }
    ensures at { AtDesk desk.now chair.new }
    ensures answer { result ≡ answer_upto at (Err cause) }
    ensures low { OnOk result (at < mark_after (Err cause)) }
    ensures passed { OnOk result (IsPassed P.state P.faults G.group (start_of desk.now) side.pmr.queue
        (mark_after (Err cause)) (view chair.old) (view chair.new)) }
    ensures refused { IfErr result (λ c. IsReported P.state P.faults G.group (start_of desk.now)
        side.pmr.queue (report_of c) (view chair.old) (view chair.new)) }
{
    match named_above(&cause, at) {
        Some(tx) => {
            pass(desk, chair, side, tx.0);
            Ok(())
        }
        None => {
            report_side(desk, chair, side, report_of(&cause));
            Err(cause)
        }
    }
}

// Drains a side that the chair holds, and gives it back.
fn drain_side<P: Port + Drop, G: Groups>(
    desk: &Desk<JournalMachine<P, G>>,
    chair: &mut Chair<JournalMachine<P, G>>,
    mut side: QueueSide<P, G::Entry>,
    at: TxNo,
) -> Result<(), Cause>
    requires at { AtDesk desk.now chair.old }
    requires side { HoldsSide P.state P.faults G.group (start_of desk.now) side.pmr.queue side
        (view chair.old) }
    requires known { IsSomeKnown P.state P.faults G.group (view chair.old) }
    requires limit { at < 2 ^ 64 - 1 }
    ensures at { AtDesk desk.now chair.new }
    ensures answered { IsAnswered P.state P.faults G.group (start_of desk.now) at side
        (view chair.old) (view chair.new) result }
    ensures refused { IfErr result (λ c. IsReported P.state P.faults G.group (start_of desk.now)
        side.pmr.queue (report_of c) (view chair.old) (view chair.new)) }
{
    match side.drain() {
        Ok(_) => {
            pass(desk, chair, side, u64::MAX);
            Ok(())
        }
        Err(cause) => stop(desk, chair, side, at, cause),
    }
}

/// Takes the side of a queue, completes until nothing is posted, stores and flushes the head past all
/// that is done, stores the queue's mark, and gives the side back. A failure of a number up to `at` is
/// reported of the queue's port and returned; one of a greater number is kept and not returned. `Off` is
/// always returned.
pub fn drain<R: Wait, P: Port + Drop, G: Groups>(
    rt: &R,
    desk: &Desk<JournalMachine<P, G>>,
    chair: &mut Chair<JournalMachine<P, G>>,
    queue: QueueNo,
    at: TxNo,
) -> Result<(), Cause>
    requires at { AtDesk desk.now chair.old }
    requires turn { IsTurn (start_of desk.now) (Side queue) }
    requires above { Each (λ h. h.0 < slot_of (start_of desk.now) (Side queue)) (view chair.old).held }
    requires seen { at ≤ (view chair.old).seen }
    ensures at { AtDesk desk.now chair.new }
    ensures drained { WasDrained P.state P.faults G.group queue at (view chair.old) (view chair.new) result }
    ensures refused { IfErr result (λ c. RefusesDrain queue c
        (view chair.old) (view chair.new)) }
{
    let item = desk.take(rt, chair, Turn::Side(queue));
    let Item::Side(side) = item else {
        unreachable!()
    };
    drain_side(desk, chair, side, at)
}
