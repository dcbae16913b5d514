// A group that is prepared is drawn and sent; or it is refused, and gives back what its session holds.
ghost use Rattle.std.specs.Prelude.{◌≡◌, ◌<◌, ◌≤◌, [], IfErr, IfOk, length};
ghost use Rattle.mq_blocks.specs.Geometry.{homes_of, queues_of, write_limit};
ghost use Rattle.mq_desk_laws.specs.Rule.{shape_of};
ghost use Rattle.mq_journal.specs.Machine.{journal};
ghost use Rattle.mq_journal.specs.Values.{side_values};
ghost use Rattle.mq_turns.specs.AtDesk.{AtDesk, chairs_of, start_of, view};
ghost use Rattle.mq_turns.specs.Desk.{allotment};
ghost use Rattle.mq_turns.specs.declared.rule.Report.TheVariants as report;
ghost use Rattle.mq_sessions.specs.Acts.{GoesOn, WasCutAt};
ghost use Rattle.mq_sessions.specs.Calls.{IsAsking, call_of};
ghost use Rattle.mq_sessions.specs.Committing.{HoldsCommit, IsMissed, IsPrepared, OnlyReports, ShowsObstacle, miss_for, reports_for};
ghost use Rattle.mq_sessions.specs.Drawing.{HasDrawn, IsCommitted, SameSeat};
ghost use Rattle.mq_sessions.specs.Drawn.{Changes};
ghost use Rattle.mq_sessions.specs.Pages.{HoldsOnlyPages, IsSeen};

use crate::asked::Asked;
use crate::committing::{Miss, Obstacle, Ready};
use crate::executor::Executor;
use crate::leaving::give_drawn_pages;
use crate::pages::give_back_pages;
use crate::preparing::make_ready;
use crate::rounds::look_only;
use mq_blocks::{Geometry, TxNo};
use mq_drive::Port;
use mq_journal::{
    Groups, JournalMachine, give_back_side, number, report_of, report_side, send, take_side,
};
use mq_pages::Held;
use mq_queue_side::QueueSide;
use mq_revoke::Placement;
use mq_turns::{Chair, Desk};
use std::alloc::Global;
use std::sync::Wait;

// Gives back the side of a group that is not drawn, and reports a refusal of its port. The pages stay with
// the session.
fn give_side<P: Port + Drop, G: Groups>(
    desk: &Desk<JournalMachine<P, G>>,
    chair: &mut Chair<JournalMachine<P, G>>,
    side: QueueSide<P, G::Entry>,
    held: &Held,
    obstacle: &Obstacle,
)
    requires at { AtDesk desk.now chair.old }
    requires holds { HoldsCommit P.state P.faults G.group (start_of desk.now) side.pmr.queue held.now.cells
        side (view chair.old) }
    requires shows { ShowsObstacle P.state P.faults G.group side.pmr.queue side (view chair.old) obstacle.now }
    ensures at { AtDesk desk.now chair.new }
    ensures pages { HoldsOnlyPages (journal P.state P.faults G.group) (start_of desk.now) held.now.cells (view chair.new) }
    ensures reports { OnlyReports (reports_for side.pmr.queue obstacle.now (view chair.old).reading.charged)
        (view chair.old) (view chair.new) }
{
    let _ = held;
    match obstacle {
        Obstacle::Drive(cause) => report_side(desk, chair, side, report_of(cause)),
        Obstacle::Memory => give_back_side(desk, chair, side),
        Obstacle::Area => give_back_side(desk, chair, side),
    }
}

/// Gives back the side and the pages of a group that is not drawn, and reports a refusal of its port.
pub(crate) fn give_up<P: Port + Drop, G: Groups>(
    desk: &Desk<JournalMachine<P, G>>,
    chair: &mut Chair<JournalMachine<P, G>>,
    side: QueueSide<P, G::Entry>,
    held: &mut Held,
    obstacle: &Obstacle,
)
    requires at { AtDesk desk.now chair.old }
    requires holds { HoldsCommit P.state P.faults G.group (start_of desk.now) side.pmr.queue held.old.cells
        side (view chair.old) }
    requires shows { ShowsObstacle P.state P.faults G.group side.pmr.queue side (view chair.old) obstacle.now }
    ensures at { AtDesk desk.now chair.new }
    ensures idle { (view chair.new).held ≡ [] }
    ensures reports { OnlyReports (reports_for side.pmr.queue obstacle.now (view chair.old).reading.charged)
        (view chair.old) (view chair.new) }
    ensures cells { held.new.cells ≡ [] }
    ensures room { held.new.room ≡ held.old.room }
{
    give_side(desk, chair, side, held, obstacle);
    give_back_pages(desk, chair, held);
}

// Draws a number for a group that is prepared, gives its pages back as the group leaves them, and sends its
// commit. The error is the number of a commit whose send was cut.
fn draw_group<P: Port + Drop, G: Executor>(
    desk: &Desk<JournalMachine<P, G>>,
    chair: &mut Chair<JournalMachine<P, G>>,
    mut side: QueueSide<P, G::Entry>,
    held: &mut Held,
    asked: &Asked<G::Request>,
    plan: &Placement,
    done: G::Done,
    ready: Ready<G::Entry>,
) -> Result<(TxNo, Vec<G::Reply>), TxNo>
    requires at { AtDesk desk.now chair.old }
    requires geometry { shape_of (side_values P.state P.faults) G.group (start_of desk.now) ≡ side.pmr.geometry }
    requires queue { side.pmr.queue ≡ asked.now.queue }
    requires holds { HoldsCommit P.state P.faults G.group (start_of desk.now) asked.now.queue held.old.cells
        side (view chair.old) }
    requires done { G.calls.on_cells side.pmr.geometry asked.now.queue held.old.cells asked.now.requests.now done }
    requires ready { (before : _) × IsPrepared P.state P.faults G.group G.calls (start_of desk.now) (call_of asked.now) done
        plan.now before side (view chair.old) ready }
    requires room { length (view chair.old).drawn < allotment (chairs_of desk.now) }
    ensures at { AtDesk desk.now chair.new }
    ensures sent { IfOk result (λ r. HasDrawn ready.entry asked.now.queue r.0 (report.Sent r.0)
        (view chair.old) (view chair.new)) }
    ensures cut { IfErr result (λ at. HasDrawn ready.entry asked.now.queue at report.Off
        (view chair.old) (view chair.new) × WasCutAt P.state P.faults G.group (view chair.old) at) }
    ensures cells { held.new.cells ≡ [] }
    ensures room { held.new.room ≡ held.old.room }
    ensures replies { IfOk result (λ r. r.1.items ≡ G.calls.replies done) }
{
    G::entries_tell();
    G::done_groups_are_on_maps();
    let Ready { prepared, entry } = ready;
    let numbered = number(desk, chair, &mut side, prepared, entry);
    let at = numbered.number();
    let (replies, mut writes, frees) = G::parts(done);
    give_drawn_pages(desk, chair, held, at, plan, &mut writes, &frees);
    match send(desk, chair, side, numbered) {
        Ok(tx) => Ok((tx, replies)),
        Err(_) => Err(at),
    }
}

// Why a group that is not drawn was not done.
fn miss_of(obstacle: Obstacle) -> Miss
    ensures { result ≡ miss_for obstacle }
{
    match obstacle {
        Obstacle::Memory => Miss::Memory,
        Obstacle::Area => Miss::AreaFull,
        Obstacle::Drive(cause) => Miss::Refused(cause),
    }
}

/// Draws and sends a group that changes something. The session holds the group's pages; it takes the side
/// of its queue, and gives all turns back. The error says why it was not done, and which number was drawn.
pub(crate) fn commit<P: Port + Drop, G: Executor, R: Wait>(
    rt: &R,
    alloc: Global,
    desk: &Desk<JournalMachine<P, G>>,
    chair: &mut Chair<JournalMachine<P, G>>,
    geometry: Geometry,
    asked: &Asked<G::Request>,
    held: &mut Held,
    done: G::Done,
    into: &mut Placement,
) -> Result<(TxNo, Vec<G::Reply>), Miss>
    requires at { AtDesk desk.now chair.old }
    requires geometry { shape_of (side_values P.state P.faults) G.group (start_of desk.now) ≡ geometry }
    requires pages { length (start_of desk.now).pages ≡ homes_of geometry }
    requires sides { length (start_of desk.now).sides ≡ queues_of geometry }
    requires asks { IsAsking G.group geometry asked.now (view chair.old) }
    requires holds { HoldsOnlyPages (journal P.state P.faults G.group) (start_of desk.now) held.old.cells (view chair.old) }
    requires seen { IsSeen (journal P.state P.faults G.group) (view chair.old) }
    requires done { G.calls.on_cells geometry asked.now.queue held.old.cells asked.now.requests.now done }
    requires changes { Changes (G.calls.writes done) (G.calls.frees done) }
    requires few { length (G.calls.writes done) ≤ write_limit geometry }
    requires room { length (view chair.old).drawn < allotment (chairs_of desk.now) }
    ensures at { AtDesk desk.now chair.new }
    ensures seat { SameSeat (view chair.old) (view chair.new) }
    ensures idle { (view chair.new).held ≡ [] }
    ensures committed { IfOk result (λ r. IsCommitted G.calls geometry (call_of asked.now) r.1.items r.0
        (view chair.old) (view chair.new)) }
    ensures missed { IfErr result (λ m. IsMissed P.state P.faults G.group G.calls geometry (call_of asked.now)
        (view chair.old) (view chair.new) m) }
    ensures goes { GoesOn (view chair.old) (view chair.new) }
    ensures cells { held.new.cells ≡ [] }
    ensures room { held.new.room ≡ held.old.room }
{
    G::entries_tell();
    let mut side = take_side(rt, desk, chair, asked.queue);
    match make_ready(alloc, desk, chair, &mut side, asked, held, &done, into) {
        Ok(ready) => match draw_group(desk, chair, side, held, asked, into, done, ready) {
            Ok(drawn) => Ok(drawn),
            Err(at) => Err(Miss::Cut(at)),
        },
        Err(obstacle) => {
            // What was known while it held these turns, the session has seen.
            look_only(desk, chair);
            give_up(desk, chair, side, held, &obstacle);
            Err(miss_of(obstacle))
        }
    }
}
