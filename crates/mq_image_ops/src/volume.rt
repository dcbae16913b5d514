// The volume that stands on an image.
ghost use Rattle.std.specs.Prelude.{◌≡◌, IfErr, IfOk, IsOkUnless};
ghost use Rattle.mq_image.specs.Drives.{IsDrive};
ghost use Rattle.mq_image_ops.specs.Standing.{RefusesVolume, StandsFor};
ghost use Rattle.mq_tree.specs.ListText.{list_text};
ghost use Rattle.mq_tree.specs.Trees.{IsAlike};
ghost use Rattle.mq_tree.specs.Volume.{Volume};

use crate::homes::read_standing;
use crate::refusal::StandingRefusal;
use mq_image::DriveImage;
use mq_tree::{Tree, mount};
use std::alloc::Global;

/// The tree of the volume that stands on an image, as a recovery would leave it. The image is tested first,
/// and then the blocks that stand.
pub fn read_volume(alloc: Global, image: DriveImage) -> Result<Tree, StandingRefusal>
    requires { IsDrive image }
    ensures ok { IfOk result (λ t. (v : Volume) × StandsFor image v × IsAlike t v) }
    ensures refused { IfErr result (RefusesVolume image) }
    ensures complete { (v : Volume) → StandsFor image v → IsOkUnless result StandingRefusal.OutOfMemory }
{
    let geometry = image.geometry;
    let blocks = read_standing(alloc, image)?;
    Ok(mount(alloc, geometry, &blocks)?)
}

/// The text that lists the volume that stands on an image.
pub fn list_volume(alloc: Global, image: DriveImage) -> Result<Vec<u8>, StandingRefusal>
    requires { IsDrive image }
    ensures ok { IfOk result (λ text. (v : Volume) × StandsFor image v × (text.items ≡ list_text v)) }
    ensures refused { IfErr result (RefusesVolume image) }
    ensures complete { (v : Volume) → StandsFor image v → IsOkUnless result StandingRefusal.OutOfMemory }
{
    let tree = read_volume(alloc, image)?;
    Ok(tree.list_text(alloc)?)
}
