// The ports of a replica are recovered, and its side is opened over them.
ghost use Rattle.std.specs.Prelude.{◌≡◌, ◌≤◌, ℕ, [], false, true, IfErr, IfOk, length};
ghost use Rattle.mq_blocks.specs.Drive.{IsQuiescent};
ghost use Rattle.mq_blocks.specs.Geometry.{area_of, queues_of, write_limit};
ghost use Rattle.mq_blocks.specs.Machine.{Writes};
ghost use Rattle.mq_drive.specs.Start.{IsPortOf};
ghost use Rattle.mq_drive.specs.declared.role.Role.TheVariants.{Queue};
ghost use Rattle.mq_ledger.specs.State.{port_at};
ghost use Rattle.mq_queue_side.specs.Laws.{IsFresh};
ghost use Rattle.mq_queue_side.specs.Side.{side_state};
ghost use Rattle.mq_queue_side.specs.Stored.{FitsArea, FitsRing, rows_of};
ghost use Rattle.mq_recover.specs.Drives.{IsQuiescentDrive, drive_of};
ghost use Rattle.mq_replica.specs.Applying.{IsSaved, Leaves};
ghost use Rattle.mq_replica.specs.Held.{IsReady, IsWithin, is_stopped, opened_state, ports_in, ports_of, ports_over};
ghost use Rattle.mq_replica.specs.Opened.{IsOpened};
ghost use Rattle.mq_replica.specs.Views.{below, faults_below};
ghost use Rattle.mq_replica.specs.Apart.{IsLow};
ghost use Rattle.mq_replica.specs.Opening.{IsFreshOpened};

use crate::applying::take_apart;
use crate::certain::CertainPort;
use crate::held::Held;
use crate::opened::Opened;
use crate::update::OfferRefusal;
use mq_blocks::{Geometry, OutOfMemory, QueueNo, TxNo};
use mq_drive::{Port, Ports};
use mq_pmr::PmrQueue;
use mq_queue_side::{Fit, QueueSide, Root};
use mq_recover::{RecoverRefusal, recover};
use mq_revoke::Placement;
use std::alloc::Global;

// The side of the queue over its port, which was recovered.
fn open_side<P: Port>(
    alloc: Global,
    geometry: Geometry,
    port: CertainPort<P>,
) -> Result<QueueSide<CertainPort<P>, ()>, (CertainPort<P>, OutOfMemory)>
    requires port { IsPortOf geometry (Queue 0) (P.state port.port) }
    requires quiet { IsQuiescent (P.state port.port) }
    requires head { (P.state port.port).head ≡ (P.state port.port).doorbell }
    ensures port { IfOk result (λ s. s.pmr.port ≡ port) }
    ensures fresh { IfOk result (λ s. IsFresh (side_state (below P.state) (faults_below P.faults) s)) }
    ensures own { IfOk result (λ s. (s.pmr.geometry ≡ geometry) × (s.pmr.queue ≡ 0)) }
    ensures none { IfOk result (λ s. s.stored.items ≡ []) }
    ensures err { IfErr result (λ e. e.0 ≡ port) }
{
    match PmrQueue::open(alloc, port, geometry, QueueNo(0)) {
        Ok(ring) => match QueueSide::open(alloc, ring) {
            Ok(side) => Ok(side),
            Err((ring, full)) => Err((ring.into_port(), full)),
        },
        Err(refused) => Err(refused),
    }
}

// The side and the root over ports that were recovered to a base.
fn open_ports<P: Port + Drop>(
    alloc: Global,
    geometry: Geometry,
    ports: Ports<CertainPort<P>>,
    base: TxNo,
) -> Result<Opened<CertainPort<P>>, Ports<CertainPort<P>>>
    requires one { queues_of geometry ≡ 1 }
    requires quiet { IsQuiescentDrive geometry (drive_of (below P.state) ports) }
    requires head { (port_at (drive_of (below P.state) ports).queues 0).head
        ≡ (port_at (drive_of (below P.state) ports).queues 0).doorbell }
    ensures ports { IfOk result (λ o. ports_over (below P.state) (faults_below P.faults) o
        ≡ ports_of (below P.state) (faults_below P.faults) ports) }
    ensures fresh { IfOk result (λ o. IsFreshOpened geometry base
        (opened_state (below P.state) (faults_below P.faults) o)) }
    ensures err { IfErr result (λ back. ports_of (below P.state) (faults_below P.faults) back
        ≡ ports_of (below P.state) (faults_below P.faults) ports) }
{
    let Ports { mut queues, root } = ports;
    let Some(port) = queues.pop() else {
        unreachable!()
    };
    match open_side(alloc, geometry, port) {
        Ok(side) => Ok(Opened {
            side,
            root: Root::open(root),
            spare: queues,
            number: base,
        }),
        Err((port, OutOfMemory)) => {
            queues.push_reserved(port);
            Err(Ports { queues, root })
        }
    }
}

/// Recovers the ports, which makes the whole journal area free, and opens the side over them. It has room
/// for a transaction that is placed so, of which all is logged, then.
pub fn reopen<P: Port + Drop>(
    alloc: Global,
    geometry: Geometry,
    ports: Ports<CertainPort<P>>,
    plan: &Placement,
) -> Result<Opened<CertainPort<P>>, (Held<CertainPort<P>>, OfferRefusal)>
    requires one { queues_of geometry ≡ 1 }
    requires quiet { IsQuiescentDrive geometry (drive_of (below P.state) ports) }
    requires logged { length plan.now.logged ≤ write_limit geometry }
    requires plain { (plan.now.direct ≡ []) × (plan.now.revoked ≡ []) }
    ensures ok { IfOk result (λ o. IsSaved geometry (ports_of (below P.state) (faults_below P.faults) ports)
        (ports_over (below P.state) (faults_below P.faults) o)) }
    ensures opened { IfOk result (λ o. IsOpened geometry
        (opened_state (below P.state) (faults_below P.faults) o)) }
    ensures area { IfOk result (λ o. FitsArea (area_of geometry) (P.state o.root.port.port).base
        (rows_of o.side.stored.items) plan.now) }
    ensures ring { IfOk result (λ o. FitsRing (P.state o.side.pmr.port.port) plan.now) }
    ensures low { IfOk result (λ o. (doorbell top : ℕ)
        → IsLow geometry (drive_of (below P.state) ports) doorbell top
        → ((P.state o.side.pmr.port.port).doorbell ≤ doorbell) × (o.number ≤ top)) }
    ensures err { IfErr result (λ e. (ws : Writes)
        → Leaves geometry ws (ports_of (below P.state) (faults_below P.faults) ports) e.1 (is_stopped e.0)
        (ports_in (below P.state) (faults_below P.faults) e.0)) }
    ensures ready { IfErr result (λ e. IsReady (below P.state) (faults_below P.faults) geometry e.0) }
    ensures within { IfErr result (λ e. (doorbell top : ℕ)
        → IsLow geometry (drive_of (below P.state) ports) doorbell top
        → IsWithin (below P.state) (faults_below P.faults) geometry doorbell top e.0) }
{
    let mut ports = ports;
    match recover(alloc, geometry, &mut ports) {
        Ok(found) => match open_ports(alloc, geometry, ports, found.base) {
            Ok(opened) => Ok(opened),
            Err(ports) => Err((Held::Apart(ports), OfferRefusal::OutOfMemory)),
        },
        Err(RecoverRefusal::Image(_)) => Err((Held::Apart(ports), OfferRefusal::OutOfMemory)),
        Err(RecoverRefusal::Off) => Err((Held::Stopped(ports), OfferRefusal::Off)),
        Err(RecoverRefusal::Failed { block: _, status }) => {
            Err((Held::Stopped(ports), OfferRefusal::Failed { status }))
        }
    }
}

// The open side, with room for a transaction that is placed so: where the journal area lacks room, it is
// reclaimed.
fn with_room<P: Port + Drop>(
    alloc: Global,
    geometry: Geometry,
    opened: Opened<CertainPort<P>>,
    plan: &Placement,
) -> Result<Opened<CertainPort<P>>, (Held<CertainPort<P>>, OfferRefusal)>
    requires ready { ∥ IsOpened geometry (opened_state (below P.state) (faults_below P.faults) opened) ∥₁ }
    requires logged { length plan.now.logged ≤ write_limit geometry }
    requires plain { (plan.now.direct ≡ []) × (plan.now.revoked ≡ []) }
    ensures ok { IfOk result (λ o. IsSaved geometry (ports_over (below P.state) (faults_below P.faults) opened)
        (ports_over (below P.state) (faults_below P.faults) o)) }
    ensures opened { IfOk result (λ o. ∥ IsOpened geometry
        (opened_state (below P.state) (faults_below P.faults) o) ∥₁) }
    ensures area { IfOk result (λ o. FitsArea (area_of geometry) (P.state o.root.port.port).base
        (rows_of o.side.stored.items) plan.now) }
    ensures ring { IfOk result (λ o. FitsRing (P.state o.side.pmr.port.port) plan.now) }
    ensures low { IfOk result (λ o. (doorbell top : ℕ)
        → ((P.state opened.side.pmr.port.port).doorbell ≤ doorbell) × (opened.number ≤ top)
        → ((P.state o.side.pmr.port.port).doorbell ≤ doorbell) × (o.number ≤ top)) }
    ensures err { IfErr result (λ e. (ws : Writes)
        → Leaves geometry ws (ports_over (below P.state) (faults_below P.faults) opened) e.1 (is_stopped e.0)
        (ports_in (below P.state) (faults_below P.faults) e.0)) }
    ensures ready { IfErr result (λ e. IsReady (below P.state) (faults_below P.faults) geometry e.0) }
    ensures within { IfErr result (λ e. (doorbell top : ℕ)
        → ((P.state opened.side.pmr.port.port).doorbell ≤ doorbell) × (opened.number ≤ top)
        → IsWithin (below P.state) (faults_below P.faults) geometry doorbell top e.0) }
{
    match opened.side.fits(plan, opened.root.base()) {
        Fit::Yes => Ok(opened),
        _ => reopen(alloc, geometry, take_apart(opened), plan),
    }
}

/// An open side with room for a transaction that is placed so, of which all is logged: where the journal
/// area lacks room, it is reclaimed.
pub fn make_ready<P: Port + Drop>(
    alloc: Global,
    geometry: Geometry,
    held: Held<CertainPort<P>>,
    plan: &Placement,
) -> Result<Opened<CertainPort<P>>, (Held<CertainPort<P>>, OfferRefusal)>
    requires ready { ∥ IsReady (below P.state) (faults_below P.faults) geometry held ∥₁ }
    requires runs { is_stopped held ≡ false }
    requires logged { length plan.now.logged ≤ write_limit geometry }
    requires plain { (plan.now.direct ≡ []) × (plan.now.revoked ≡ []) }
    ensures ok { IfOk result (λ o. IsSaved geometry (ports_in (below P.state) (faults_below P.faults) held)
        (ports_over (below P.state) (faults_below P.faults) o)) }
    ensures opened { IfOk result (λ o. ∥ IsOpened geometry
        (opened_state (below P.state) (faults_below P.faults) o) ∥₁) }
    ensures area { IfOk result (λ o. FitsArea (area_of geometry) (P.state o.root.port.port).base
        (rows_of o.side.stored.items) plan.now) }
    ensures ring { IfOk result (λ o. FitsRing (P.state o.side.pmr.port.port) plan.now) }
    ensures low { IfOk result (λ o. (doorbell top : ℕ)
        → IsWithin (below P.state) (faults_below P.faults) geometry doorbell top held
        → ((P.state o.side.pmr.port.port).doorbell ≤ doorbell) × (o.number ≤ top)) }
    ensures err { IfErr result (λ e. (ws : Writes)
        → Leaves geometry ws (ports_in (below P.state) (faults_below P.faults) held) e.1 (is_stopped e.0)
        (ports_in (below P.state) (faults_below P.faults) e.0)) }
    ensures ready { IfErr result (λ e. IsReady (below P.state) (faults_below P.faults) geometry e.0) }
    ensures within { IfErr result (λ e. (doorbell top : ℕ)
        → IsWithin (below P.state) (faults_below P.faults) geometry doorbell top held
        → ∥ IsWithin (below P.state) (faults_below P.faults) geometry doorbell top e.0 ∥₁) }
{
    match held {
        Held::Opened(opened) => with_room(alloc, geometry, opened, plan),
        Held::Apart(ports) => reopen(alloc, geometry, ports, plan),
        Held::Stopped(_) => unreachable!(),
    }
}
