// A run on an image.
ghost use Rattle.std.specs.Prelude.{◌≡◌, ◌≤◌, ◌^◌, Err, IfErr, IfOk, Ok};
ghost use Rattle.std.specs.Option.{ForSome};
ghost use Rattle.mq_image.specs.Drives.{IsDrive};
ghost use Rattle.mq_image_run.specs.Drives.{AreKept, IsReady};
ghost use Rattle.mq_image_run.specs.Refusals.{IsUnplayed};
ghost use Rattle.mq_image_run.specs.Runs.{IsPlayedOn};

use crate::limits::recover_within;
use crate::options::DriveOptions;
use crate::ran::PlayedImage;
use crate::stopping::play_to_stop;
use crate::unplayed::Unplayed;
use mq_blocks::TxNo;
use mq_drive::{EmuPort, Ports};
use mq_image::DriveImage;
use mq_image_ops::{RecoveredImage, an_image_fits_its_file, drive_power};
use std::alloc::Global;

// The base that a recovery found.
fn base_of(recovered: &RecoveredImage) -> TxNo
    ensures { result ≡ recovered.now.found.base }
{
    recovered.found.base
}

/// Recovers the drive that starts from an image, and plays on it: `play` is given the ports of the drive, and gives
/// them back with what it reports. Power and failing command are those of the drive after the recovery. Once all is
/// played, the power of the drive is cut, and what that leaves is the new image.
pub fn play_on_image<
    T: Drop,
    E,
    F: for<'f> FnOnce(Ports<EmuPort<'f>>) -> Result<(T, Ports<EmuPort<'f>>), E>,
>(
    alloc: Global,
    image: DriveImage,
    options: DriveOptions,
    play: F,
) -> Result<PlayedImage<T>, Unplayed<E>>
    requires image { IsDrive image }
    requires limit { ForSome options.limit (λ k. k ≤ 2 ^ 63) }
    requires may { (ports : _) → IsReady image.geometry ports → F.pre play ports }
    requires keeps { (ports : _) (r : _) → F.post play ports (Ok r) → AreKept image.geometry ports r.1 }
    ensures ok { IfOk result (IsPlayedOn (λ ports t end. F.post play ports (Ok (t, end))) image options) }
    ensures refused { IfErr result (IsUnplayed (λ ports e. F.post play ports (Err e)) options.fail image) }
{
    let geometry = image.geometry;
    let recovered = recover_within(alloc, image, options.pick)?;
    let base = base_of(&recovered);
    let (fuse, seats) = drive_power(alloc, geometry, options.limit)?;
    let stopped = play_to_stop(alloc, fuse, seats, recovered, options, play)?;
    let driven = stopped.driven;
    let left = DriveImage {
        geometry,
        ports: driven.images,
    };
    an_image_fits_its_file(&left);
    Ok(PlayedImage {
        image: left,
        base,
        played: driven.played,
        failed: driven.failed,
        events: stopped.events,
    })
}
