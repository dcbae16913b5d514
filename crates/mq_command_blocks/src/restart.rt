// What stands on an image that a cut left: it is recovered, and its home blocks are taken out of it.
ghost use Rattle.std.specs.Prelude.{◌≡◌, ◌<◌, ◌≤◌, ◌^◌, ℕ, List, IfOk, IfSome, None, Some};
ghost use Rattle.std.specs.Option.{ForSome};
ghost use Rattle.mq_blocks.specs.Descriptor.{Descriptor};
ghost use Rattle.mq_blocks.specs.Journal.{Reaches};
ghost use Rattle.mq_command_blocks.specs.Picked.{IsBroughtHome, IsRestarted};
ghost use Rattle.mq_command_blocks.specs.Restart.{StandsOn};
ghost use Rattle.mq_image.specs.Drives.{IsDrive};
ghost use Rattle.mq_image_ops.specs.Cuts.{IsPickedRecovery};
ghost use Rattle.mq_image_ops.specs.Recovering.{IsRecoveryOf};
ghost use Rattle.mq_image_ops.specs.Views.{view_of};

use mq_blocks::{Block, OutOfMemory};
use mq_image::DriveImage;
use mq_image_ops::{RecoveredImage, recover_image, take_homes};
use mq_recover::ImageFault;
use std::alloc::Global;

/// What stands on an image.
#[derive(Drop)]
pub struct Standing {
    /// The number of transactions that stand.
    pub prefix: u64,
    /// The home blocks. An absent one is zeros.
    pub blocks: Vec<Option<Block>>,
}

/// Where the image is readable, only memory can run out.
pub fn only_memory(fault: ImageFault) -> OutOfMemory
    requires { fault ≡ ImageFault.OutOfMemory }
{
    match fault {
        ImageFault::OutOfMemory => OutOfMemory,
        ImageFault::Bad { .. } => unreachable!(),
        ImageFault::Limit { .. } => unreachable!(),
        ImageFault::Twice { .. } => unreachable!(),
    }
}

// Recovers an image that is readable. The power goes off after `cut` events, if that is given.
fn recover_readable(
    alloc: Global,
    image: DriveImage,
    cut: Option<u64>,
    pick: u64,
) -> Result<RecoveredImage, OutOfMemory>
    requires drive { IsDrive image }
    requires readable { (ds : List Descriptor) × Reaches image.geometry (view_of image) ds }
    requires cut { ForSome cut (λ k. k ≤ 2 ^ 63) }
    ensures ok { IfOk result (IsRecoveryOf image cut) }
    ensures chosen { IfOk result (IsPickedRecovery image cut pick) }
{
    match recover_image(alloc, image, cut, pick) {
        Ok(recovered) => Ok(recovered),
        Err(fault) => Err(only_memory(fault)),
    }
}

// What stands on an image that is readable, by one recovery on which the power stays on.
fn stands_now(alloc: Global, image: DriveImage, pick: u64) -> Result<Standing, OutOfMemory>
    requires drive { IsDrive image }
    requires readable { (ds : List Descriptor) × Reaches image.geometry (view_of image) ds }
    ensures stands { IfOk result (λ r. StandsOn image r.prefix r.blocks.items) }
    ensures chosen { IfOk result (λ r. IsBroughtHome image pick r.prefix r.blocks.items) }
{
    let recovered = recover_readable(alloc, image, None, pick)?;
    let prefix = recovered.found.prefix;
    let blocks = take_homes(recovered.image)?;
    Ok(Standing { prefix, blocks })
}

/// What stands on an image that is readable. If `again` is given, a first recovery is cut after that many
/// events, and a second recovers what it leaves; the number of transactions is then that of the first.
/// What is left of what is uncertain follows from `pick`.
pub fn stands_after(
    alloc: Global,
    image: DriveImage,
    again: Option<u64>,
    pick: u64,
) -> Result<Standing, OutOfMemory>
    requires drive { IsDrive image }
    requires readable { (ds : List Descriptor) × Reaches image.geometry (view_of image) ds }
    requires again { IfSome again (λ k. k < 2 ^ 63) }
    ensures stands { IfOk result (λ r. StandsOn image r.prefix r.blocks.items) }
    ensures chosen { IfOk result (λ r. IsRestarted image again pick r.prefix r.blocks.items) }
{
    match again {
        None => stands_now(alloc, image, pick),
        Some(events) => {
            let first = recover_readable(alloc, image, Some(events), pick)?;
            let prefix = first.found.prefix;
            let second = stands_now(alloc, first.image, pick)?;
            Ok(Standing {
                prefix,
                blocks: second.blocks,
            })
        }
    }
}
