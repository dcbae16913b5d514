// The home blocks that stand on an image.
ghost use Rattle.std.specs.Prelude.{◌≡◌, ◌⊎◌, ℕ, List, IfErr, IfOk};
ghost use Rattle.mq_image.specs.Drives.{IsDrive};
ghost use Rattle.mq_image_ops.specs.Standing.{IsStandingOf, RefusesDrive};

use mq_blocks::Block;
use mq_image::DriveImage;
use mq_image_ops::{recover_image, take_homes};
use mq_recover::ImageFault;
use std::alloc::Global;

/// What stands on the home blocks of an image. The image is recovered in memory, without a cut, and its home
/// blocks are taken out of what that leaves. An absent block is zeros.
pub fn standing_blocks(alloc: Global, image: DriveImage) -> Result<Vec<Option<Block>>, ImageFault>
    requires { IsDrive image }
    ensures ok { IfOk result (λ blocks. IsStandingOf image blocks.items) }
    ensures refused { IfErr result (λ e. (e ≡ ImageFault.OutOfMemory) ⊎ RefusesDrive image e) }
{
    let recovered = recover_image(alloc, image, None, 0)?;
    Ok(take_homes(recovered.image)?)
}
