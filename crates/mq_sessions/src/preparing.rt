// What a group that changes something is placed by, and the room for it on the side of its queue.
ghost use Rattle.std.specs.Prelude.{◌≡◌, ◌<◌, ◌≤◌, ◌+◌, IfErr, IfOk, None, OnOk, length};
ghost use Rattle.mq_blocks.specs.Geometry.{area_of, homes_of, write_limit};
ghost use Rattle.mq_blocks.specs.Descriptor.{AreRising};
ghost use Rattle.mq_journal.specs.Machine.{journal};
ghost use Rattle.mq_journal.specs.Values.{side_values};
ghost use Rattle.mq_desk_laws.specs.Rule.{shape_of};
ghost use Rattle.mq_queue_side.specs.Commits.{IsPlanOf};
ghost use Rattle.mq_queue_side.specs.Stored.{FitIs, rows_of};
ghost use Rattle.mq_queue_side.specs.declared.answers.Fit.TheVariants.{Yes};
ghost use Rattle.mq_turns.specs.AtDesk.{AtDesk, start_of, view};
ghost use Rattle.mq_sessions.specs.Committing.{HasNoRoom, HasRead, HoldsCommit, IsObstacle, IsPlacedOn, IsPrepared, ReadsWords};
ghost use Rattle.mq_sessions.specs.Calls.{IsAsking, call_of};
ghost use Rattle.mq_sessions.specs.Drawn.{Changes, blocks_in};
ghost use Rattle.mq_sessions.specs.Pages.{IsSeen};
ghost use Rattle.mq_sessions.specs.Preparing.{IsDrainedForRoom, IsEntryReady, IsMadeReady, IsSideOf, KeepsSide, cause_kept};
ghost use Rattle.mq_sessions.specs.declared.committing.Obstacle.TheVariants as obstacle;

use crate::asked::Asked;
use crate::committing::{Obstacle, Ready};
use crate::executor::Executor;
use crate::planning::plan_writes;
use crate::reads::Reads;
use mq_blocks::{Geometry, OutOfMemory, QueueNo, TxNo};
use mq_drive::Port;
use mq_journal::{Groups, JournalMachine, drain_held};
use mq_pages::{Held, Write};
use mq_queue_side::{Cause, Fit, QueueSide};
use mq_revoke::{Placement, plan};
use mq_turns::{Chair, Desk};
use std::alloc::Global;

/// The refusal of a side that keeps a failure.
pub(crate) fn kept_cause<P: Port, E>(side: &QueueSide<P, E>) -> Option<Cause>
    ensures { result ≡ cause_kept side.now.kept }
{
    let (tx, why) = side.kept()?;
    Some(Cause::Stopped { tx, why })
}

/// Reads a front, and then the base.
pub(crate) fn read_words<P: Port + Drop, G: Groups>(
    desk: &Desk<JournalMachine<P, G>>,
    chair: &mut Chair<JournalMachine<P, G>>,
) -> Reads
    requires at { AtDesk desk.now chair.old }
    requires some { 0 < length (start_of desk.now).sides }
    ensures at { AtDesk desk.now chair.new }
    ensures read { HasRead result (view chair.old) (view chair.new) }
    ensures seen { IsSeen (journal P.state P.faults G.group) (view chair.new) }
{
    let front = desk.front(chair);
    let base = desk.base(chair);
    Reads { front, base }
}

/// Places the blocks that a group writes, on the pages that are held.
pub(crate) fn place(
    alloc: Global,
    geometry: Geometry,
    queue: QueueNo,
    held: &Held,
    writes: &[Write],
    reads: Reads,
    into: &mut Placement,
) -> Result<(), OutOfMemory>
    requires rise { AreRising 0 (homes_of geometry) (blocks_in writes.now) }
    requires few { length writes.now ≤ write_limit geometry }
    ensures placed { OnOk result (IsPlacedOn geometry queue reads held.now.cells writes.now into.new) }
    ensures whole { OnOk result (length into.new.logged + length into.new.direct ≡ length writes.now) }
{
    let planned = plan_writes(alloc, held, writes)?;
    match plan(&planned, geometry, queue, reads.front, reads.base, into) {
        Ok(()) => Ok(()),
        Err(_) => unreachable!(),
    }
}

/// Makes sure that the side has room for what is placed so. If its ring has too little room, it is
/// drained.
pub(crate) fn make_room<P: Port + Drop, G: Groups>(
    desk: &Desk<JournalMachine<P, G>>,
    chair: &Chair<JournalMachine<P, G>>,
    side: &mut QueueSide<P, G::Entry>,
    plan: &Placement,
    base: TxNo,
) -> Result<(), Obstacle>
    requires at { AtDesk desk.now chair.now }
    requires side { IsSideOf P.state P.faults G.group (start_of desk.now) side.old (view chair.now) }
    requires seen { IsSeen (journal P.state P.faults G.group) (view chair.now) }
    requires none { side.old.kept ≡ None }
    requires few { length plan.now.logged + length plan.now.direct ≤ write_limit side.old.pmr.geometry }
    ensures side { IsSideOf P.state P.faults G.group (start_of desk.now) side.new (view chair.now) }
    ensures keeps { KeepsSide side.old side.new }
    ensures drains { IsDrainedForRoom P.state P.faults base plan.now side.old side.new }
    ensures none { OnOk result (side.new.kept ≡ None) }
    ensures fits { OnOk result (FitIs (area_of side.new.pmr.geometry) base
        (rows_of side.new.stored.items) (P.state side.new.pmr.port) plan.now Yes) }
    ensures lacks { IfErr result (HasNoRoom P.state P.faults G.group side.old.pmr.queue base plan.now
        side.new (view chair.now)) }
{
    match side.fits(plan, base) {
        Fit::Yes => return Ok(()),
        Fit::Area => return Err(Obstacle::Area),
        Fit::Ring => {}
    }
    match drain_held(desk, chair, side) {
        Ok(()) => Ok(()),
        Err(cause) => Err(Obstacle::Drive(cause)),
    }
}

// Prepares the commit of a group that is placed, and makes its entry.
fn prepare<P: Port + Drop, G: Executor>(
    alloc: Global,
    side: &mut QueueSide<P, G::Entry>,
    asked: &Asked<G::Request>,
    done: &G::Done,
    plan: &Placement,
    reads: Reads,
) -> Result<Ready<G::Entry>, Obstacle>
    requires plan { IsPlanOf (homes_of side.old.pmr.geometry) (blocks_in (G.calls.writes done.now)) plan.now }
    requires few { length (G.calls.writes done.now) ≤ write_limit side.old.pmr.geometry }
    ensures keeps { KeepsSide side.old side.new }
    ensures port { side.new.pmr ≡ side.old.pmr }
    ensures kept { side.new.kept ≡ side.old.kept }
    ensures done { side.new.done ≡ side.old.done }
    ensures ready { IfOk result (IsEntryReady P.state G.calls (call_of asked.now) done.now plan.now reads side.new) }
    ensures lacks { IfErr result (λ e. e ≡ obstacle.Memory) }
{
    if !side.is_bounded(plan) {
        return Err(Obstacle::Memory);
    }
    let prepared = side.prepare(alloc, G::writes(done), plan)?;
    let entry = G::entry(alloc, asked, done, plan, reads)?;
    Ok(Ready { prepared, entry })
}

/// Places the blocks of a group by a front and a base that it reads, makes room for them on the side of
/// its queue, and prepares its commit. The session holds the side and the group's pages throughout.
pub(crate) fn make_ready<P: Port + Drop, G: Executor>(
    alloc: Global,
    desk: &Desk<JournalMachine<P, G>>,
    chair: &mut Chair<JournalMachine<P, G>>,
    side: &mut QueueSide<P, G::Entry>,
    asked: &Asked<G::Request>,
    held: &Held,
    done: &G::Done,
    into: &mut Placement,
) -> Result<Ready<G::Entry>, Obstacle>
    requires at { AtDesk desk.now chair.old }
    requires geometry { shape_of (side_values P.state P.faults) G.group (start_of desk.now) ≡ side.old.pmr.geometry }
    requires queue { side.old.pmr.queue ≡ asked.now.queue }
    requires asks { IsAsking G.group side.old.pmr.geometry asked.now (view chair.old) }
    requires holds { HoldsCommit P.state P.faults G.group (start_of desk.now) asked.now.queue held.now.cells
        side.old (view chair.old) }
    requires done { G.calls.on_cells side.old.pmr.geometry asked.now.queue held.now.cells asked.now.requests.now done.now }
    requires changes { Changes (G.calls.writes done.now) (G.calls.frees done.now) }
    requires few { length (G.calls.writes done.now) ≤ write_limit side.old.pmr.geometry }
    ensures at { AtDesk desk.now chair.new }
    ensures words { ReadsWords (view chair.old) (view chair.new) }
    ensures keeps { KeepsSide side.old side.new }
    ensures drains { IsMadeReady P.state P.faults into.new (view chair.new) side.old side.new }
    ensures holds { HoldsCommit P.state P.faults G.group (start_of desk.now) asked.now.queue held.now.cells
        side.new (view chair.new) }
    ensures ready { IfOk result (IsPrepared P.state P.faults G.group G.calls (start_of desk.now) (call_of asked.now) done.now
        into.new (view chair.old) side.new (view chair.new)) }
    ensures lacks { IfErr result (IsObstacle P.state P.faults G.group G.calls side.old.pmr.geometry (call_of asked.now)
        (view chair.old) side.new (view chair.new)) }
{
    G::done_groups_are_on_maps();
    G::done_groups_rise();
    G::entries_tell();
    G::transactions_are_of_sessions();
    G::done_groups_may::<JournalMachine<P, G>>();
    if let Some(cause) = kept_cause(side) {
        return Err(Obstacle::Drive(cause));
    }
    let Reads { front, base } = read_words(desk, chair);
    let geometry = side.geometry();
    let reads = Reads { front, base };
    place(
        alloc,
        geometry,
        asked.queue,
        held,
        G::writes(done),
        reads,
        into,
    )?;
    make_room(desk, chair, side, into, base)?;
    prepare::<P, G>(alloc, side, asked, done, into, Reads { front, base })
}
