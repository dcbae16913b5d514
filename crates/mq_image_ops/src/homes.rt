// The home blocks of an image, taken out of its ports.
ghost use Rattle.std.specs.Prelude.{◌≡◌, ◌⊎◌, ◌≤◌, ◌++◌, ℕ, List, length, drop, IfErr, IfOk, IsOkUnless};
ghost use Rattle.mq_blocks.specs.Descriptor.{Descriptor};
ghost use Rattle.mq_image.specs.Drives.{IsDrive};
ghost use Rattle.mq_image_ops.specs.Standing.{IsStandingOf, Reads, RefusesDrive};
ghost use Rattle.mq_image_ops.specs.Views.{home_blocks};

use crate::recovery::recover_image;
use mq_blocks::{Block, OutOfMemory};
use mq_drive::PortImage;
use mq_image::DriveImage;
use mq_recover::ImageFault;
use std::alloc::Global;

/// What stands on the home blocks of an image. A recovery of the image runs, and the home blocks are taken
/// out of what it leaves. An absent block is zeros.
pub fn read_standing(alloc: Global, image: DriveImage) -> Result<Vec<Option<Block>>, ImageFault>
    requires { IsDrive image }
    ensures ok { IfOk result (λ blocks. IsStandingOf image blocks.items) }
    ensures refused { IfErr result (λ e. (e ≡ ImageFault.OutOfMemory) ⊎ RefusesDrive image e) }
    ensures complete { (ds : List Descriptor) (top : ℕ)
        → Reads image ds top
        → IsOkUnless result ImageFault.OutOfMemory }
{
    let recovered = recover_image(alloc, image, None, 0)?;
    Ok(take_homes(recovered.image)?)
}

/// The home blocks of an image, in rising order of numbers; an absent one is zeros. The boxes are moved, and
/// the rest of the image is dropped.
pub fn take_homes(image: DriveImage) -> Result<Vec<Option<Block>>, OutOfMemory>
    requires { IsDrive image }
    ensures { IfOk result (λ blocks. blocks.items ≡ home_blocks image) }
{
    let DriveImage { geometry, ports } = image;
    let mut queues = ports;
    let root = queues.pop().unwrap();
    let mut blocks = root.blocks;
    for queue in queues {
        append_zone(&mut blocks, geometry.area(), queue)?;
    }
    Ok(blocks)
}

// Appends the blocks of a queue's zone, which lie after those of its journal area.
fn append_zone(
    blocks: &mut Vec<Option<Block>>,
    area: u32,
    queue: PortImage,
) -> Result<(), OutOfMemory>
    requires { area ≤ length queue.blocks }
    ensures { IfOk result (λ _. blocks.new.items ≡ blocks.old.items ++ drop area queue.blocks) }
{
    let mut stored = queue.blocks;
    let mut zone = stored.split_off(area as usize)?;
    blocks.append(&mut zone)?;
    Ok(())
}
