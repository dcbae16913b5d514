// What stands on an image that a cut left.
ghost use Rattle.std.specs.Prelude.{◌≡◌, IfOk};
ghost use Rattle.mq_drive.specs.Emu.{emu_state};
ghost use Rattle.mq_image.specs.Drives.{IsDrive};
ghost use Rattle.mq_loose_recover.specs.Images.{IsReadableLooseImage};
ghost use Rattle.mq_loose_recover.specs.Standing.{LooselyStands};
ghost use Rattle.mq_recover.specs.Drives.{IsQuiescentDrive, drive_of};
ghost use Rattle.mq_loose_run.specs.Cuts.{IsReadableLoose, IsReadOf};

use mq_blocks::{Block, Geometry, OutOfMemory, TxNo};
use mq_command_blocks::only_memory;
use mq_drive::{EmuPort, Ports};
use mq_image::DriveImage;
use mq_image_ops::{cut_ports, drive_power, start_ports};
use mq_loose_recover::{LooseStanding, loose_images_are_whole, loose_stands};
use std::alloc::Global;

/// An image, and what was read of it.
#[derive(Drop)]
pub struct Left {
    pub image: DriveImage,
    /// The numbers of its set, the least first.
    pub set: Vec<TxNo>,
    /// What stands on each home block.
    pub blocks: Vec<Option<Block>>,
}

// What stands on a drive that is readable.
fn read_ports(
    alloc: Global,
    geometry: Geometry,
    ports: &Ports<EmuPort<'_>>,
) -> Result<LooseStanding, OutOfMemory>
    requires still { IsQuiescentDrive geometry (drive_of emu_state ports.now) }
    requires readable { IsReadableLooseImage geometry (drive_of emu_state ports.now) }
    ensures { IfOk result (LooselyStands geometry (drive_of emu_state ports.now)) }
{
    match loose_stands(alloc, geometry, ports) {
        Ok(standing) => Ok(standing),
        Err(fault) => Err(only_memory(fault)),
    }
}

/// Reads an image that is readable. The drive that starts from it is read, and a cut of its power leaves the image
/// again.
pub fn read_left(alloc: Global, image: DriveImage) -> Result<Left, OutOfMemory>
    requires drive { IsDrive image }
    requires readable { IsReadableLoose image }
    ensures same { IfOk result (λ l. l.image ≡ image) }
    ensures read { IfOk result (λ l. IsReadOf image l.set.items l.blocks.items) }
{
    loose_images_are_whole();
    let geometry = image.geometry;
    let (fuse, seats) = drive_power(alloc, geometry, None)?;
    let ports = start_ports(alloc, &fuse, seats, image, None, 0)?;
    let standing = read_ports(alloc, geometry, &ports)?;
    let left = cut_ports(alloc, ports, 0)?;
    Ok(Left {
        image: DriveImage {
            geometry,
            ports: left.images,
        },
        set: standing.set,
        blocks: standing.blocks,
    })
}
