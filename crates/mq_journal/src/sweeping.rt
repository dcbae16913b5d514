// The sides of all queues are drained.
ghost use Rattle.std.specs.Prelude.{◌≡◌, ◌<◌, ◌≤◌, length, IfErr, OnOk};
ghost use Rattle.mq_turns.specs.AtDesk.{AtDesk, view, start_of};
ghost use Rattle.mq_turns.specs.Lists.{Each};
ghost use Rattle.mq_journal.specs.Sweeping.{HasSwept, NamesUpto, WasRefused};

use crate::draining::drain;
use crate::machine::{Groups, JournalMachine};
use mq_blocks::{QueueNo, TxNo};
use mq_drive::Port;
use mq_queue_side::Cause;
use mq_turns::{Chair, Desk};
use std::sync::Wait;

/// Drains the side of each queue, one after another, in rising order of queues: every number up to `at` is
/// then known to be done. The first refusal ends it, and the queues above are not drained. The chair holds
/// no side and not the root, neither before nor after.
pub fn drain_all<R: Wait, P: Port + Drop, G: Groups>(
    rt: &R,
    desk: &Desk<JournalMachine<P, G>>,
    chair: &mut Chair<JournalMachine<P, G>>,
    queues: u32,
    at: TxNo,
) -> Result<(), Cause>
    requires at { AtDesk desk.now chair.old }
    requires queues { queues ≡ length (start_of desk.now).sides }
    requires some { 0 < queues }
    requires pages { Each (λ h. h.0 < length (start_of desk.now).pages) (view chair.old).held }
    requires seen { at ≤ (view chair.old).seen }
    ensures at { AtDesk desk.now chair.new }
    ensures done { OnOk result (at ≤ (view chair.new).reading.done) }
    ensures swept { OnOk result (HasSwept P.state P.faults G.group (view chair.old) (view chair.new)) }
    ensures refused { IfErr result (λ c. WasRefused P.state P.faults G.group queues at c
        (view chair.old) (view chair.new)) }
    ensures upto { IfErr result (λ c. NamesUpto at c) }
{
    for queue in 0..queues {
        drain(rt, desk, chair, QueueNo(queue), at)?;
    }
    Ok(())
}
