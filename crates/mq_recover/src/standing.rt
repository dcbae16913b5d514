// What stands on the home blocks of an image.
ghost use Rattle.std.specs.Prelude.{◌≡◌, ◌⊎◌, IfOk, IfErr, IsErrOf, IsOkUnless};
ghost use Rattle.mq_recover.specs.Drives.{IsQuiescentDrive, drive_of};
ghost use Rattle.mq_recover.specs.Images.{IsReadableImage, RefusesImage};
ghost use Rattle.mq_recover.specs.Standing.{Finds, StandsIn};

use crate::choice::{Recovered, find_copies};
use crate::contents::read_blocks;
use crate::refusal::ImageFault;
use mq_blocks::{Block, Geometry, TxNo};
use mq_drive::{Port, Ports};
use std::alloc::Global;

/// What stands on the home blocks of an image, and which transactions count.
#[derive(Drop)]
pub struct Standing {
    /// What stands on each home block.
    pub blocks: Vec<Option<Block>>,
    /// The number of transactions above the base that stand.
    pub prefix: u64,
    /// The image's base.
    pub base: TxNo,
    /// The greatest number that the image shows.
    pub top: TxNo,
}

/// What stands on the home blocks of a drive. Nothing is written.
pub fn stands<P: Port>(
    alloc: Global,
    geometry: Geometry,
    ports: &Ports<P>,
) -> Result<Standing, ImageFault>
    requires { IsQuiescentDrive geometry (drive_of P.state ports.now) }
    ensures ok { IfOk result (StandsIn geometry (drive_of P.state ports.now)) }
    ensures refused { IfErr result (λ e. (e ≡ ImageFault.OutOfMemory)
        ⊎ RefusesImage geometry (drive_of P.state ports.now) e) }
    ensures exact { (e : ImageFault)
        → RefusesImage geometry (drive_of P.state ports.now) e
        → IsErrOf result e ⊎ IsErrOf result ImageFault.OutOfMemory }
    ensures readable { IfOk result (λ _. IsReadableImage geometry
        (drive_of P.state ports.now)) }
    ensures complete { IsReadableImage geometry (drive_of P.state ports.now)
        → IsOkUnless result ImageFault.OutOfMemory }
{
    let found = find_copies(alloc, geometry, ports)?;
    let blocks = read_blocks(alloc, geometry, ports, &found.copies)?;
    Ok(Standing {
        blocks,
        prefix: found.recovered.prefix,
        base: TxNo(ports.root.base()),
        top: found.recovered.base,
    })
}

/// What a recovery of a drive would find: how many transactions above the base stand, and the new base.
/// No home block is read, and nothing is written.
pub fn find_prefix<P: Port>(
    alloc: Global,
    geometry: Geometry,
    ports: &Ports<P>,
) -> Result<Recovered, ImageFault>
    requires { IsQuiescentDrive geometry (drive_of P.state ports.now) }
    ensures ok { IfOk result (Finds geometry (drive_of P.state ports.now)) }
    ensures refused { IfErr result (λ e. (e ≡ ImageFault.OutOfMemory)
        ⊎ RefusesImage geometry (drive_of P.state ports.now) e) }
    ensures exact { (e : ImageFault)
        → RefusesImage geometry (drive_of P.state ports.now) e
        → IsErrOf result e ⊎ IsErrOf result ImageFault.OutOfMemory }
    ensures readable { IfOk result (λ _. IsReadableImage geometry
        (drive_of P.state ports.now)) }
    ensures complete { IsReadableImage geometry (drive_of P.state ports.now)
        → IsOkUnless result ImageFault.OutOfMemory }
{
    let found = find_copies(alloc, geometry, ports)?;
    Ok(found.recovered)
}
