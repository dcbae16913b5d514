// The sides of all queues are drained, so that all numbers that were drawn so far are done.
ghost use Rattle.std.specs.Prelude.{◌≡◌, ◌<◌, ◌≤◌, [], length, IfOk, IfErr, OnOk};
ghost use Rattle.mq_turns.specs.AtDesk.{AtDesk, view, start_of};
ghost use Rattle.mq_turns.specs.Desk.{Below, Sees};
ghost use Rattle.mq_turns.specs.Lists.{Each};
ghost use Rattle.mq_turns.specs.Meaning.{newest};
ghost use Rattle.mq_journal.specs.Numbers.{Shared, machine};
ghost use Rattle.mq_journal.specs.Steps.{IsRefusedBy, MovesOn};

use crate::machine::{Groups, JournalMachine};
use crate::sweeping::drain_all;
use mq_blocks::TxNo;
use mq_drive::Port;
use mq_queue_side::Cause;
use mq_turns::{Chair, Desk};
use std::sync::Wait;

/// Looks at the number drawn last, and drains all sides: all numbers up to the returned one are then known
/// to be done.
pub(crate) fn catch_up<R: Wait, P: Port + Drop, G: Groups>(
    rt: &R,
    desk: &Desk<JournalMachine<P, G>>,
    chair: &mut Chair<JournalMachine<P, G>>,
    queues: u32,
) -> Result<TxNo, Cause>
    requires at { AtDesk desk.now chair.old }
    requires queues { queues ≡ length (start_of desk.now).sides }
    requires some { 0 < queues }
    requires pages { Each (λ h. h.0 < length (start_of desk.now).pages) (view chair.old).held }
    ensures at { AtDesk desk.now chair.new }
    ensures looked { IfOk result (λ n. (K : _)
        × (newest K ≡ n)
        × Sees (machine P.state P.faults G.group) (view chair.old) K) }
    ensures below { IfOk result (λ n. Below n (view chair.old)) }
    ensures done { IfOk result (λ n. n ≤ (view chair.new).reading.done) }
    ensures held { (view chair.new).held ≡ (view chair.old).held }
    ensures moves { OnOk result (MovesOn [] [] (view chair.old) (view chair.new)) }
    ensures refused { IfErr result (λ c. IsRefusedBy P.state P.faults G.group [] c
        (view chair.old) (view chair.new)) }
{
    let none: Option<G::Entry> = None;
    let last = desk.look(chair, none.as_ref());
    drain_all(rt, desk, chair, queues, last)?;
    Ok(last)
}
