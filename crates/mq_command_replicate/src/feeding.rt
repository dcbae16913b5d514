// The lines of a text, fed to a replica.
ghost use Rattle.std.specs.Prelude.{◌≡◌, ◌<◌, ◌≤◌, ◌+◌, ◌^◌, IfOk, Ok, [], length};
ghost use Rattle.mq_block_text.specs.Text.{AreGoodItems, IsGoodText};
ghost use Rattle.mq_blocks.specs.declared.geometry.Geometry as geometry;
ghost use Rattle.mq_drive.specs.Emu.{emu_faults, emu_state};
ghost use Rattle.mq_replica.specs.Contents.{Contents};
ghost use Rattle.mq_replica.specs.Replicas.{replica_state};
ghost use Rattle.mq_replica.specs.Views.{below, faults_below};
ghost use Rattle.mq_replica.specs.Offers.{Offers};
ghost use Rattle.mq_replica.specs.Updates.{AreWritesFit, AreWritesRising};
ghost use Rattle.mq_command_replicate.specs.Feeds.{HasLines, HasUpdate};
ghost use Rattle.mq_command_replicate.specs.Lasting.{IsFollowing};
ghost use Rattle.mq_command_replicate.specs.Updates.{update_of};

use crate::link::{Arrival, send};
use crate::updates::update_of;
use mq_block_text::{BlockLine, BlockText};
use mq_blocks::{OutOfMemory, TxNo};
use mq_drive::EmuPort;
use mq_replica::{Feeder, OfferRefusal, Replica, Update};
use rand_core::SeedableRng;
use rand_pcg::Lcg128Xsl64;
use std::alloc::Global;

// Where the power never ends and no command fails, an update that fits is refused for memory alone.
fn only_memory(refusal: OfferRefusal) -> OutOfMemory
    requires { refusal ≡ OfferRefusal.OutOfMemory }
{
    match refusal {
        OfferRefusal::OutOfMemory => OutOfMemory,
        OfferRefusal::Stopped => unreachable!(),
        OfferRefusal::Limit => unreachable!(),
        OfferRefusal::Range { .. } => unreachable!(),
        OfferRefusal::TooLarge { .. } => unreachable!(),
        OfferRefusal::Off => unreachable!(),
        OfferRefusal::Failed { .. } => unreachable!(),
    }
}

// Offers an update once.
fn offer_once(
    alloc: Global,
    replica: &mut Replica<EmuPort<'_>>,
    update: &Update,
) -> Result<TxNo, OutOfMemory>
    requires follows { IsFollowing (replica_state (below emu_state) (faults_below emu_faults) replica.old) }
    requires low { (replica_state (below emu_state) (faults_below emu_faults) replica.old).reached ≤ 2 ^ 32 }
    requires fit { AreWritesFit (replica_state (below emu_state) (faults_below emu_faults) replica.old).geometry update.now.writes }
    requires rising { AreWritesRising update.now.writes }
    requires few { (replica_state (below emu_state) (faults_below emu_faults) replica.old).offers < 2 ^ 48 }
    ensures { IfOk result (λ n. Offers (replica_state (below emu_state) (faults_below emu_faults) replica.old) update.now (Ok n)
        (replica_state (below emu_state) (faults_below emu_faults) replica.new)) }
{
    match replica.offer(alloc, update) {
        Ok(reached) => Ok(reached),
        Err(refusal) => Err(only_memory(refusal)),
    }
}

// Offers the next update as often as it comes through the link.
fn offer(
    alloc: Global,
    replica: &mut Replica<EmuPort<'_>>,
    update: &Update,
    arrival: Arrival,
) -> Result<TxNo, OutOfMemory>
    requires follows { IsFollowing (replica_state (below emu_state) (faults_below emu_faults) replica.old) }
    requires low { (replica_state (below emu_state) (faults_below emu_faults) replica.old).reached < 2 ^ 32 }
    requires fit { AreWritesFit (replica_state (below emu_state) (faults_below emu_faults) replica.old).geometry update.now.writes }
    requires next { update.now.number ≡ (replica_state (below emu_state) (faults_below emu_faults) replica.old).reached + 1 }
    requires rising { AreWritesRising update.now.writes }
    requires few { (replica_state (below emu_state) (faults_below emu_faults) replica.old).offers + 2 < 2 ^ 48 }
    ensures reached { IfOk result (λ n. n ≡ update.now.number) }
    ensures has { IfOk result (λ _. HasUpdate (replica_state (below emu_state) (faults_below emu_faults) replica.old) update.now
        (replica_state (below emu_state) (faults_below emu_faults) replica.new)) }
{
    let reached = offer_once(alloc, replica, update)?;
    match arrival {
        Arrival::Once => Ok(reached),
        Arrival::Twice => offer_once(alloc, replica, update),
    }
}

// Sends the update of a line until the replica has it.
fn feed_line(
    alloc: Global,
    feeder: &mut Feeder,
    replica: &mut Replica<EmuPort<'_>>,
    words: &mut Lcg128Xsl64,
    line: &BlockLine,
) -> Result<(), OutOfMemory>
    requires follows { IsFollowing (replica_state (below emu_state) (faults_below emu_faults) replica.old) }
    requires good { AreGoodItems line.now }
    requires feeder { feeder.old
        ≡ record { acknowledged = (replica_state (below emu_state) (faults_below emu_faults) replica.old).reached; waiting = [] } }
    requires low { (replica_state (below emu_state) (faults_below emu_faults) replica.old).reached < 2 ^ 32 }
    requires few { (replica_state (below emu_state) (faults_below emu_faults) replica.old).offers + 2 < 2 ^ 48 }
    ensures feeder { IfOk result (λ _. feeder.new
        ≡ record { acknowledged = (replica_state (below emu_state) (faults_below emu_faults) replica.new).reached; waiting = [] }) }
    ensures has { IfOk result (λ _. HasUpdate (replica_state (below emu_state) (faults_below emu_faults) replica.old)
        (update_of ((replica_state (below emu_state) (faults_below emu_faults) replica.old).reached + 1) line.now)
        (replica_state (below emu_state) (faults_below emu_faults) replica.new)) }
{
    let number = TxNo(feeder.acknowledged().0 + 1);
    if feeder.push(update_of(alloc, number, line)?).is_err() {
        return Err(OutOfMemory);
    }
    let Some(update) = feeder.next() else {
        unreachable!()
    };
    let reached = offer(alloc, replica, update, send(words))?;
    feeder.heard(reached);
    Ok(())
}

/// Feeds the lines of a text to a replica that has none yet, over the link of a seed.
pub fn feed_lines(
    alloc: Global,
    replica: &mut Replica<EmuPort<'_>>,
    text: &BlockText,
    seed: u64,
) -> Result<(), OutOfMemory>
    requires follows { IsFollowing (replica_state (below emu_state) (faults_below emu_faults) replica.old) }
    requires good { IsGoodText text.now }
    requires none { (replica_state (below emu_state) (faults_below emu_faults) replica.old).reached ≡ 0 }
    requires first { (replica_state (below emu_state) (faults_below emu_faults) replica.old).offers ≡ 0 }
    ensures { IfOk result (λ _. (g : geometry.Geometry) (first : Contents)
        → HasLines g first text.now 0 (replica_state (below emu_state) (faults_below emu_faults) replica.old)
        → HasLines g first text.now (length text.now) (replica_state (below emu_state) (faults_below emu_faults) replica.new)) }
{
    let mut words = Lcg128Xsl64::seed_from_u64(seed);
    let mut feeder = Feeder::new(alloc, replica.reached());
    for line in &text.0 {
        feed_line(alloc, &mut feeder, replica, &mut words, line)?;
    }
    Ok(())
}
