// An update that is the next, on what a replica holds.
ghost use Rattle.std.specs.Prelude.{◌≡◌, ◌<◌, ◌≤◌, ◌+◌, ◌*◌, ◌^◌, ◌++◌, ◌∷◌, ℕ, [], All, false, IfErr, IfOk, length, map, OnOk, Ok, Err};
ghost use Rattle.mq_blocks.specs.Descriptor.{AreRising};
ghost use Rattle.mq_blocks.specs.Geometry.{homes_of, write_limit};
ghost use Rattle.mq_replica.specs.Applying.{IsWritten, Leaves};
ghost use Rattle.mq_replica.specs.Held.{IsReady, IsWithin, is_stopped, opened_state, ports_in, ports_over, reached_by, replica_with};
ghost use Rattle.mq_replica.specs.Offers.{IsRefusedFor, MayApply, Offers};
ghost use Rattle.mq_replica.specs.Opened.{IsOpened};
ghost use Rattle.mq_replica.specs.Plans.{pairs_of, written_as};
ghost use Rattle.mq_replica.specs.Updates.{AreWritesFit, AreWritesRising};
ghost use Rattle.mq_replica.specs.Views.{below, faults_below};

use crate::applying::apply;
use crate::certain::CertainPort;
use crate::held::Held;
use crate::opened::Opened;
use crate::plan::{all_logged, first_not_below, last_home, update_limit, writes_of};
use crate::reopen::make_ready;
use crate::update::{OfferRefusal, Update};
use mq_blocks::{Geometry, OutOfMemory, TxNo};
use mq_drive::Port;
use mq_pages::Write;
use mq_revoke::Placement;
use std::alloc::Global;

/// The greatest number that a replica reaches.
const LIMIT: u64 = 1 << 62;

// The writes of an update and of the last home block, with a plan by which all are logged.
fn plan_update(
    alloc: Global,
    geometry: Geometry,
    update: &Update,
) -> Result<(Vec<Write>, Placement), OutOfMemory>
    ensures pairs { IfOk result (λ r. map written_as r.0.items ≡ pairs_of geometry update.now) }
    ensures whole { IfOk result (λ r. All (λ w. length w.content ≡ 4096) r.0.items) }
    ensures plan { IfOk result (λ r. r.1 ≡ record {
      logged = map (λ w. w.block) r.0.items;
      direct = [];
      revoked = [];
    }) }
{
    let writes = writes_of(alloc, geometry, update)?;
    let plan = all_logged(alloc, &writes)?;
    Ok((writes, plan))
}

// Commits an update on what a replica holds.
fn apply_update<P: Port + Drop>(
    alloc: Global,
    geometry: Geometry,
    held: Held<CertainPort<P>>,
    update: &Update,
) -> Result<Opened<CertainPort<P>>, (Held<CertainPort<P>>, OfferRefusal)>
    requires ready { ∥ IsReady (below P.state) (faults_below P.faults) geometry held ∥₁ }
    requires runs { is_stopped held ≡ false }
    requires fit { AreWritesFit geometry update.now.writes }
    requires rising { AreWritesRising update.now.writes }
    requires within { ∥ IsWithin (below P.state) (faults_below P.faults) geometry (2 ^ 62 + 4096 * 2 ^ 48)
        (2 ^ 62 + 2 ^ 48) held ∥₁ }
    ensures ok { IfOk result (λ o. IsWritten geometry (pairs_of geometry update.now)
        (ports_in (below P.state) (faults_below P.faults) held)
        (ports_over (below P.state) (faults_below P.faults) o)) }
    ensures opened { IfOk result (λ o. ∥ IsOpened geometry
        (opened_state (below P.state) (faults_below P.faults) o) ∥₁) }
    ensures low { IfOk result (λ o. (doorbell top : ℕ)
        → IsWithin (below P.state) (faults_below P.faults) geometry doorbell top held
        → ((P.state o.side.pmr.port.port).doorbell ≤ doorbell + 4096) × (o.number ≤ top + 1)) }
    ensures err { IfErr result (λ e. Leaves geometry (pairs_of geometry update.now)
        (ports_in (below P.state) (faults_below P.faults) held) e.1 (is_stopped e.0)
        (ports_in (below P.state) (faults_below P.faults) e.0)) }
    ensures ready { IfErr result (λ e. ∥ IsReady (below P.state) (faults_below P.faults) geometry e.0 ∥₁) }
    ensures within { IfErr result (λ e. (doorbell top : ℕ)
        → IsWithin (below P.state) (faults_below P.faults) geometry doorbell top held
        → ∥ IsWithin (below P.state) (faults_below P.faults) geometry doorbell top e.0 ∥₁) }
{
    let (writes, plan) = match plan_update(alloc, geometry, update) {
        Ok(planned) => planned,
        Err(OutOfMemory) => return Err((held, OfferRefusal::OutOfMemory)),
    };
    match make_ready(alloc, geometry, held, &plan) {
        Ok(opened) => apply(alloc, geometry, opened, &writes, &plan),
        Err(refused) => Err(refused),
    }
}

// Tests an update before any memory is taken.
fn check_update(
    geometry: Geometry,
    reached: TxNo,
    stopped: bool,
    update: &Update,
) -> Result<(), OfferRefusal>
    requires rising { AreWritesRising update.now.writes }
    ensures ok { OnOk result (MayApply geometry reached stopped update.now.writes) }
    ensures err { IfErr result (IsRefusedFor geometry reached stopped update.now.writes) }
{
    if stopped {
        return Err(OfferRefusal::Stopped);
    }
    if reached.0 >= LIMIT {
        return Err(OfferRefusal::Limit);
    }
    let writes = update.writes.as_slice();
    if let Some(block) = first_not_below(last_home(geometry), writes) {
        return Err(OfferRefusal::Range { block });
    }
    let limit = update_limit(geometry);
    let count = writes.len() as u32;
    if count > limit {
        return Err(OfferRefusal::TooLarge { count, limit });
    }
    Ok(())
}

/// Applies the next update to what a replica holds, and returns its number, or why it isn't applied.
pub fn try_update<P: Port + Drop>(
    alloc: Global,
    geometry: Geometry,
    reached: TxNo,
    held: Held<CertainPort<P>>,
    update: &Update,
) -> (Held<CertainPort<P>>, Result<TxNo, OfferRefusal>)
    requires next { update.now.number ≡ reached + 1 }
    requires ready { ∥ IsReady (below P.state) (faults_below P.faults) geometry held ∥₁ }
    requires rising { AreWritesRising update.now.writes }
    requires within { ∥ IsWithin (below P.state) (faults_below P.faults) geometry (2 ^ 62 + 4096 * 2 ^ 48)
        (2 ^ 62 + 2 ^ 48) held ∥₁ }
    ensures offers { (offers : ℕ) → Offers
        (replica_with (below P.state) (faults_below P.faults) geometry reached offers held)
        update.now result.1
        (replica_with (below P.state) (faults_below P.faults) geometry (reached_by reached result.1)
        (offers + 1) result.0) }
    ensures ready { ∥ IsReady (below P.state) (faults_below P.faults) geometry result.0 ∥₁ }
    ensures within { (doorbell top : ℕ)
        → IsWithin (below P.state) (faults_below P.faults) geometry doorbell top held
        → ∥ IsWithin (below P.state) (faults_below P.faults) geometry (doorbell + 4096) (top + 1) result.0 ∥₁ }
{
    if let Err(refusal) = check_update(geometry, reached, held.is_stopped(), update) {
        return (held, Err(refusal));
    }
    match apply_update(alloc, geometry, held, update) {
        Ok(opened) => (Held::Opened(opened), Ok(update.number)),
        Err((held, refusal)) => (held, Err(refusal)),
    }
}
