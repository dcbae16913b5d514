// What is tested before a run.
ghost use Rattle.std.specs.Prelude.{IfErr, IfOk, IsOkUnless, List, MatchOption, None, ℕ};
ghost use Rattle.mq_blocks.specs.Descriptor.{Descriptor};
ghost use Rattle.mq_image.specs.Drives.{IsDrive};
ghost use Rattle.mq_image_ops.specs.Recovering.{IsRecoveryOf};
ghost use Rattle.mq_image_run.specs.Limits.{AreWithin, IsFirstAbove};
ghost use Rattle.mq_image_run.specs.Refusals.{IsUnfit};

use mq_blocks::TxNo;
use mq_image::DriveImage;
use mq_image_ops::{RecoveredImage, recover_image};
use mq_recover::ImageFault;
use std::alloc::Global;

/// A run begins with no number and no doorbell above this one, so that none of its own exceeds the limits
/// of the journal.
const RUN_LIMIT: u64 = 1 << 62;

// The base that a recovery found if it is above the limit of a run, else the doorbell of the first queue
// whose doorbell is.
fn first_above(image: &DriveImage, base: TxNo) -> Option<u64>
    requires { IsDrive image.now }
    ensures { MatchOption result (AreWithin image.now base) (IsFirstAbove image.now base) }
{
    if base.0 > RUN_LIMIT {
        return Some(base.0);
    }
    for q in 0..image.geometry.queues() {
        let doorbell = image.ports[q as usize].doorbell;
        if doorbell > RUN_LIMIT {
            return Some(doorbell);
        }
    }
    None
}

/// Recovers an image whole, and tests that its numbers are within the limits of a run.
pub fn recover_within(
    alloc: Global,
    image: DriveImage,
    pick: u64,
) -> Result<RecoveredImage, ImageFault>
    requires { IsDrive image }
    ensures ok { IfOk result (λ r. IsRecoveryOf image None r × AreWithin image r.found.base) }
    ensures refused { IfErr result (IsUnfit image) }
{
    let recovered = recover_image(alloc, image, None, pick)?;
    match first_above(&recovered.image, recovered.found.base) {
        Some(base) => Err(ImageFault::Limit { base }),
        None => Ok(recovered),
    }
}
