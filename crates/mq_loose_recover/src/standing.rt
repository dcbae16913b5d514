// What stands on the home blocks of an image of the loose order.
ghost use Rattle.std.specs.Prelude.{◌≡◌, ◌⊎◌, IfOk, IfErr, IsErrOf, IsOkUnless};
ghost use Rattle.mq_loose_recover.specs.Choices.{IsLooselyFound};
ghost use Rattle.mq_loose_recover.specs.Images.{IsReadableLooseImage, RefusesLooseImage};
ghost use Rattle.mq_loose_recover.specs.Standing.{LooselyStands};
ghost use Rattle.mq_recover.specs.Drives.{IsQuiescentDrive, drive_of};

use crate::choice::choose;
use crate::descriptors::LooseDescriptors;
use mq_blocks::{Block, Geometry, TxNo};
use mq_drive::{Port, Ports};
use mq_recover::{CopyPlace, ImageFault, read_blocks, read_chains_by};
use std::alloc::Global;

/// What stands on the home blocks of an image, and the numbers of its set above its base.
#[derive(Drop)]
pub struct LooseStanding {
    /// What stands on each home block.
    pub blocks: Vec<Option<Block>>,
    /// The numbers above the base of the transactions that stand, the least first.
    pub set: Vec<TxNo>,
    /// The image's base, and after a recovery the new one.
    pub base: TxNo,
    /// The greatest number that the image shows.
    pub top: TxNo,
}

// Where the copies of the home blocks stand, the numbers that stand above the base, and the greatest number.
#[derive(Drop)]
pub struct LooseFound {
    pub copies: Vec<Option<CopyPlace>>,
    pub set: Vec<TxNo>,
    pub top: TxNo,
}

// Finds where the copies stand of the set of a drive, and its top.
pub fn find_copies<P: Port>(
    alloc: Global,
    geometry: Geometry,
    ports: &Ports<P>,
) -> Result<LooseFound, ImageFault>
    requires { IsQuiescentDrive geometry (drive_of P.state ports.now) }
    ensures ok { IfOk result (IsLooselyFound geometry (drive_of P.state ports.now)) }
    ensures refused { IfErr result (λ e. (e ≡ ImageFault.OutOfMemory)
        ⊎ RefusesLooseImage geometry (drive_of P.state ports.now) e) }
    ensures exact { (e : ImageFault)
        → RefusesLooseImage geometry (drive_of P.state ports.now) e
        → IsErrOf result e ⊎ IsErrOf result ImageFault.OutOfMemory }
    ensures readable { IfOk result (λ _. IsReadableLooseImage geometry
        (drive_of P.state ports.now)) }
{
    let base = ports.root.base();
    let read = read_chains_by::<P, LooseDescriptors>(alloc, geometry, ports)?;
    let chosen = choose(alloc, geometry, ports, read.chains, base)?;
    Ok(LooseFound {
        copies: chosen.copies,
        set: chosen.set,
        top: read.top,
    })
}

/// What stands on the home blocks of a drive of the loose order. Nothing is written.
pub fn loose_stands<P: Port>(
    alloc: Global,
    geometry: Geometry,
    ports: &Ports<P>,
) -> Result<LooseStanding, ImageFault>
    requires { IsQuiescentDrive geometry (drive_of P.state ports.now) }
    ensures ok { IfOk result (LooselyStands geometry (drive_of P.state ports.now)) }
    ensures refused { IfErr result (λ e. (e ≡ ImageFault.OutOfMemory)
        ⊎ RefusesLooseImage geometry (drive_of P.state ports.now) e) }
    ensures exact { (e : ImageFault)
        → RefusesLooseImage geometry (drive_of P.state ports.now) e
        → IsErrOf result e ⊎ IsErrOf result ImageFault.OutOfMemory }
    ensures readable { IfOk result (λ _. IsReadableLooseImage geometry
        (drive_of P.state ports.now)) }
    ensures complete { IsReadableLooseImage geometry (drive_of P.state ports.now)
        → IsOkUnless result ImageFault.OutOfMemory }
{
    let found = find_copies(alloc, geometry, ports)?;
    let blocks = read_blocks(alloc, geometry, ports, &found.copies)?;
    Ok(LooseStanding {
        blocks,
        set: found.set,
        base: TxNo(ports.root.base()),
        top: found.top,
    })
}
