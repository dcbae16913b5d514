// What a checkpoint does with the root.
ghost use Rattle.std.specs.Prelude.{◌≡◌, ◌<◌, ◌≤◌, [], IfErr, IfOk, OnOk};
ghost use Rattle.mq_desk_laws.specs.Bases.{BaseOk};
ghost use Rattle.mq_drive.specs.Steps.{OffCause};
ghost use Rattle.mq_journal.specs.Numbers.{Shared, machine, values};
ghost use Rattle.mq_desk_laws.specs.Rule.{core_of};
ghost use Rattle.mq_turns.specs.AtDesk.{AtDesk, view, start_of};
ghost use Rattle.mq_turns.specs.Desk.{Sees};
ghost use Rattle.mq_journal.specs.Raised.{HasRaised, IsStored, KeepsStanding};
ghost use Rattle.mq_journal.specs.Steps.{IsRefusedBy};

use crate::machine::{Groups, JournalMachine};
use crate::root_reporting::report_port;
use mq_blocks::TxNo;
use mq_drive::{Off, Port};
use mq_queue_side::{Cause, Root};
use mq_turns::{Chair, Desk, Item, Turn};
use std::sync::Wait;

// Stores the base and flushes it, where the root's flushed base is below it. A greater one that was stored
// before, and not flushed, is stored again.
fn store<P: Port>(root: &mut Root<P>, base: TxNo) -> Result<(), Off>
    ensures stored { OnOk result (base ≤ (P.state root.new.port).base) }
    ensures raised { OnOk result (HasRaised P.state (P.state root.new.port).base root.old root.new) }
    ensures stands { KeepsStanding base (P.state root.old.port) (P.state root.new.port) }
    ensures cause { OffCause result (P.faults root.old.port) (P.faults root.new.port) }
{
    if base <= root.base() {
        return Ok(());
    }
    root.raise_base(TxNo(base.0.max(root.stored().0)))
}

/// Takes the root, stores and flushes the base where the root's is below it, raises the base word to the
/// root's base, and gives the root back. Returns the root's base.
pub(crate) fn raise_to<R: Wait, P: Port + Drop, G: Groups>(
    rt: &R,
    desk: &Desk<JournalMachine<P, G>>,
    chair: &mut Chair<JournalMachine<P, G>>,
    base: TxNo,
) -> Result<TxNo, Cause>
    requires at { AtDesk desk.now chair.old }
    requires idle { (view chair.old).held ≡ [] }
    requires base { (K : Shared _ _ _)
        → Sees (machine P.state P.faults G.group) (view chair.old) K
        → BaseOk (core_of (values P.state P.faults G.group) G.group K) base }
    ensures at { AtDesk desk.now chair.new }
    ensures idle { (view chair.new).held ≡ [] }
    ensures reached { IfOk result (λ n. base ≤ n) }
    ensures raised { IfOk result (λ n. IsStored P.state P.faults G.group n
        (view chair.old) (view chair.new)) }
    ensures refused { IfErr result (λ c. IsRefusedBy P.state P.faults G.group [] c
        (view chair.old) (view chair.new)) }
{
    let Item::Root(mut root) = desk.take(rt, chair, Turn::Root) else {
        unreachable!()
    };
    match store(&mut root, base) {
        Ok(()) => {
            let raised = root.base();
            desk.raise(chair, raised);
            desk.give_back(chair, Turn::Root, Item::Root(root));
            Ok(raised)
        }
        Err(_) => {
            report_port(desk, chair, &Turn::Root, Item::Root(root), &Cause::Off);
            Err(Cause::Off)
        }
    }
}
