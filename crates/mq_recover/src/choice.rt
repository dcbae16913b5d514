// Which transactions stand: those right above the base, as far as there is no gap in their numbers.
ghost use Rattle.std.specs.Prelude.{◌≡◌, ◌⊎◌, IfOk, IfErr, IsErrOf};
ghost use Rattle.mq_blocks.specs.Geometry.{homes_of};
ghost use Rattle.mq_recover.specs.Choices.{IsChosen, IsFoundIn};
ghost use Rattle.mq_recover.specs.Drives.{IsQuiescentDrive, drive_of};
ghost use Rattle.mq_recover.specs.Images.{RefusesImage};
ghost use Rattle.mq_recover.specs.Merges.{RefusesTwice};
ghost use Rattle.mq_recover.specs.Queues.{AreChains};

use crate::chain::Chain;
use crate::copies::{CopyPlace, no_copies, take_over};
use crate::merge::take_oldest;
use crate::queues::read_chains;
use crate::refusal::ImageFault;
use mq_blocks::{Geometry, TxNo};
use mq_drive::{Port, Ports};
use std::alloc::Global;

/// What a recovery found.
#[derive(Clone, Copy, PartialEq, Eq)]
pub struct Recovered {
    /// The number of transactions above the old base that stand.
    pub prefix: u64,
    /// The new base, the greatest number that the image showed.
    pub base: TxNo,
}

// Where the copies stand of the transactions right above the base.
#[derive(Drop)]
pub struct Chosen {
    pub copies: Vec<Option<CopyPlace>>,
    // The number of these transactions.
    pub prefix: u64,
}

// Where the copies of the home blocks stand, and what a recovery of them recovers.
#[derive(Drop)]
pub struct Found {
    pub copies: Vec<Option<CopyPlace>>,
    pub recovered: Recovered,
}

// Finds where the copies stand of the prefix of a drive, and its top. Each descriptor is read once.
pub fn find_copies<P: Port>(
    alloc: Global,
    geometry: Geometry,
    ports: &Ports<P>,
) -> Result<Found, ImageFault>
    requires { IsQuiescentDrive geometry (drive_of P.state ports.now) }
    ensures ok { IfOk result (IsFoundIn geometry (drive_of P.state ports.now)) }
    ensures refused { IfErr result (λ e. (e ≡ ImageFault.OutOfMemory)
        ⊎ RefusesImage geometry (drive_of P.state ports.now) e) }
    ensures exact { (e : ImageFault)
        → RefusesImage geometry (drive_of P.state ports.now) e
        → IsErrOf result e ⊎ IsErrOf result ImageFault.OutOfMemory }
{
    let base = ports.root.base();
    let read = read_chains(alloc, geometry, ports)?;
    let chosen = choose(alloc, geometry, read.chains, base)?;
    Ok(Found {
        copies: chosen.copies,
        recovered: Recovered {
            prefix: chosen.prefix,
            base: read.top,
        },
    })
}

// Goes through the chains of all queues in rising order of numbers, and finds the copies of the
// transactions right above the base, as far as there is no gap. What comes after a gap is also
// tested.
fn choose(
    alloc: Global,
    geometry: Geometry,
    chains: Vec<Chain>,
    base: u64,
) -> Result<Chosen, ImageFault>
    requires { AreChains (homes_of geometry) base chains.items }
    ensures ok { IfOk result (IsChosen (homes_of geometry) base chains.items) }
    ensures refused { IfErr result (λ e. (e ≡ ImageFault.OutOfMemory) ⊎ RefusesTwice chains.items e) }
{
    let mut chains = chains;
    let mut copies = no_copies(alloc, geometry)?;
    let mut prefix = 0;
    while let Some(next) = take_oldest(&mut chains)? {
        if next.number - base == prefix + 1 {
            take_over(&mut copies, &next);
            prefix += 1;
        }
    }
    Ok(Chosen { copies, prefix })
}
