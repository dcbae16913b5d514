// A checkpoint.
ghost use Rattle.std.specs.Prelude.{◌≡◌, [], length, IfErr, IfOk};
ghost use Rattle.mq_blocks.specs.Geometry.{homes_of, queues_of};
ghost use Rattle.mq_journal.specs.Numbers.{values};
ghost use Rattle.mq_desk_laws.specs.Rule.{shape_of};
ghost use Rattle.mq_turns.specs.AtDesk.{AtDesk, view, start_of};
ghost use Rattle.mq_journal.specs.Raised.{HasRefused, Raises};

use crate::catching_up::catch_up;
use crate::machine::{Groups, JournalMachine};
use crate::pages::bring_pages;
use crate::refusal::CheckpointRefusal;
use crate::root::raise_to;
use mq_blocks::{Geometry, TxNo};
use mq_drive::Port;
use mq_turns::{Chair, Desk};
use std::alloc::Global;
use std::sync::Wait;

/// Writes home each page that waits for it, page by page while other sessions commit, and raises the base,
/// so that the journal areas have room for what comes above it. Returns the base. Where the root has
/// flushed it before, its port stores and flushes nothing.
///
/// The chair holds nothing before and after, and at most one page and one port at a time. The geometry is
/// that of the desk's sides, with a page for each home block and a side for each queue. After a refusal
/// this call has not raised the base; pages that reached home are marked so.
pub fn checkpoint<R: Wait, P: Port + Drop, G: Groups>(
    rt: &R,
    alloc: Global,
    geometry: Geometry,
    desk: &Desk<JournalMachine<P, G>>,
    chair: &mut Chair<JournalMachine<P, G>>,
) -> Result<TxNo, CheckpointRefusal>
    requires at { AtDesk desk.now chair.old }
    requires shape { geometry ≡ shape_of (values P.state P.faults G.group) G.group (start_of desk.now) }
    requires pages { length (start_of desk.now).pages ≡ homes_of geometry }
    requires sides { length (start_of desk.now).sides ≡ queues_of geometry }
    requires idle { (view chair.old).held ≡ [] }
    ensures at { AtDesk desk.now chair.new }
    ensures idle { (view chair.new).held ≡ [] }
    ensures raised { IfOk result (λ base. Raises P.state P.faults G.group base
        (view chair.old) (view chair.new)) }
    ensures refused { IfErr result (λ r. HasRefused P.state P.faults G.group r
        (view chair.old) (view chair.new)) }
{
    let last = catch_up(rt, desk, chair, geometry.queues())?;
    let front = desk.front(chair);
    let base = TxNo(last.0.max(front.0));
    bring_pages(rt, desk, chair, alloc, geometry, base)?;
    let raised = raise_to(rt, desk, chair, base)?;
    Ok(raised)
}
