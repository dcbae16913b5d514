// The writes of an update on an open side.
ghost use Rattle.std.specs.Prelude.{◌≡◌, ◌≤◌, ◌+◌, ◌^◌, ℕ, [], All, Err, IfErr, IfOk, List, length, map};
ghost use Rattle.mq_blocks.specs.Descriptor.{AreRising};
ghost use Rattle.mq_blocks.specs.Drive.{staged_end};
ghost use Rattle.mq_blocks.specs.Geometry.{area_of, homes_of, write_limit};
ghost use Rattle.mq_blocks.specs.Journal.{number_limit};
ghost use Rattle.mq_blocks.specs.declared.geometry.Geometry as geometry;
ghost use Rattle.mq_queue_side.specs.Stored.{FitsArea, FitsRing, rows_of, slots_in};
ghost use Rattle.mq_recover.specs.Drives.{IsQuiescentDrive, drive_of};
ghost use Rattle.mq_drive.specs.Steps.{PortFault};
ghost use Rattle.mq_replica.specs.Apart.{IsLow};
ghost use Rattle.mq_replica.specs.Committing.{CommitCause, refusal_by};
ghost use Rattle.mq_replica.specs.Applying.{IsWritten, Leaves};
ghost use Rattle.mq_replica.specs.Held.{IsReady, IsWithin, is_stopped, opened_state, ports_in, ports_of, ports_over};
ghost use Rattle.mq_replica.specs.Opened.{IsOpened};
ghost use Rattle.mq_replica.specs.Plans.{written_as};
ghost use Rattle.mq_replica.specs.Views.{below, faults_below};

use crate::certain::CertainPort;
use crate::committing::commit;
use crate::held::Held;
use crate::opened::Opened;
use crate::update::OfferRefusal;
use mq_blocks::{Geometry, OutOfMemory, TxNo};
use mq_drive::{Port, Ports};
use mq_pages::Write;
use mq_queue_side::Cause;
use mq_revoke::Placement;
use std::alloc::Global;

// The refusal of an offer, where the drive did not execute it.
fn refusal_of(cause: Cause) -> OfferRefusal
    requires { (old : List PortFault) × (new : List PortFault) × CommitCause (Err cause) old new }
    ensures { result ≡ refusal_by cause }
{
    match cause {
        Cause::Off => OfferRefusal::Off,
        Cause::Failed { tx: _, status } => OfferRefusal::Failed { status },
        Cause::FailedHome { .. } => unreachable!(),
        Cause::Stopped { .. } => unreachable!(),
    }
}

/// The ports of an open side and its root. It takes no memory.
pub fn take_apart<P: Port + Drop>(opened: Opened<CertainPort<P>>) -> Ports<CertainPort<P>>
    ensures ports { ports_of (below P.state) (faults_below P.faults) result
        ≡ ports_over (below P.state) (faults_below P.faults) opened }
    ensures one { length result.queues.items ≡ 1 }
    ensures quiet { (g : geometry.Geometry)
        → IsOpened g (opened_state (below P.state) (faults_below P.faults) opened)
        → IsQuiescentDrive g (drive_of (below P.state) result) }
    ensures low { (g : geometry.Geometry) (doorbell top : ℕ)
        → IsOpened g (opened_state (below P.state) (faults_below P.faults) opened)
        → (P.state opened.side.pmr.port.port).doorbell ≤ doorbell
        → opened.number ≤ top
        → IsLow g (drive_of (below P.state) result) doorbell top }
{
    let Opened {
        side,
        root,
        mut spare,
        number: _,
    } = opened;
    spare.push_reserved(side.into_pmr().into_port());
    Ports {
        queues: spare,
        root: root.into_port(),
    }
}

/// Commits these writes, all of which the plan logs, and drains the queue. After a cause of the drive the
/// side is taken apart.
pub fn apply<P: Port + Drop>(
    alloc: Global,
    geometry: Geometry,
    opened: Opened<CertainPort<P>>,
    writes: &[Write],
    plan: &Placement,
) -> Result<Opened<CertainPort<P>>, (Held<CertainPort<P>>, OfferRefusal)>
    requires opened { ∥ IsOpened geometry (opened_state (below P.state) (faults_below P.faults) opened) ∥₁ }
    requires plan { plan.now ≡ record {
      logged = map (λ w. w.block) writes.now;
      direct = [];
      revoked = [];
    } }
    requires rising { AreRising 0 (homes_of geometry) (map (λ w. w.block) writes.now) }
    requires whole { All (λ w. length w.content ≡ 4096) writes.now }
    requires few { length writes.now ≤ write_limit geometry }
    requires area { FitsArea (area_of geometry) (P.state opened.root.port.port).base
        (rows_of opened.side.stored.items) plan.now }
    requires ring { FitsRing (P.state opened.side.pmr.port.port) plan.now }
    requires number { opened.number + 1 ≤ number_limit }
    requires end { staged_end (P.state opened.side.pmr.port.port) + slots_in plan.now ≤ number_limit }
    ensures ok { IfOk result (λ o. IsWritten geometry (map written_as writes.now)
        (ports_over (below P.state) (faults_below P.faults) opened)
        (ports_over (below P.state) (faults_below P.faults) o)) }
    ensures opened { IfOk result (λ o.
        IsOpened geometry (opened_state (below P.state) (faults_below P.faults) opened)
        → IsOpened geometry (opened_state (below P.state) (faults_below P.faults) o)) }
    ensures number { IfOk result (λ o. o.number ≡ opened.number + 1) }
    ensures err { IfErr result (λ e. Leaves geometry (map written_as writes.now)
        (ports_over (below P.state) (faults_below P.faults) opened) e.1 (is_stopped e.0)
        (ports_in (below P.state) (faults_below P.faults) e.0)) }
    ensures ready { IfErr result (λ e.
        IsOpened geometry (opened_state (below P.state) (faults_below P.faults) opened)
        → IsReady (below P.state) (faults_below P.faults) geometry e.0) }
    ensures within { IfErr result (λ e. (doorbell top : ℕ)
        → (P.state opened.side.pmr.port.port).doorbell ≤ doorbell
        → opened.number ≤ top
        → IsWithin (below P.state) (faults_below P.faults) geometry doorbell top e.0) }
{
    let Opened {
        mut side,
        root,
        spare,
        number,
    } = opened;
    let prepared = match side.prepare(alloc, writes, plan) {
        Ok(prepared) => prepared,
        Err(OutOfMemory) => {
            let opened = Opened {
                side,
                root,
                spare,
                number,
            };
            return Err((Held::Opened(opened), OfferRefusal::OutOfMemory));
        }
    };
    let number = TxNo(number.0 + 1);
    let answer = commit(&mut side, prepared, number);
    let opened = Opened {
        side,
        root,
        spare,
        number,
    };
    match answer {
        Ok(_) => Ok(opened),
        Err(cause) => Err((Held::Stopped(take_apart(opened)), refusal_of(cause))),
    }
}
