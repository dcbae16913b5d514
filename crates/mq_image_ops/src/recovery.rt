// Recovery of an image, whose power may go off in its middle.
ghost use Rattle.std.specs.Prelude.{◌≡◌, ◌⊎◌, ◌+◌, ◌≤◌, ◌^◌, ℕ, List, IfErr, IfOk, IsOkUnless, None, OnOk, Some, if◌then◌else◌};
ghost use Rattle.std.specs.Option.{ForSome};
ghost use Rattle.mq_blocks.specs.Descriptor.{Descriptor};
ghost use Rattle.mq_blocks.specs.Geometry.{queues_of};
ghost use Rattle.mq_drive.specs.Emu.{emu_faults, emu_state};
ghost use Rattle.mq_drive.specs.Seats.{name_of};
ghost use Rattle.mq_image.specs.Drives.{IsDrive};
ghost use Rattle.mq_image_ops.specs.Cuts.{AreSound, HasRun, IsLeftBy, IsPicked, IsPickedRecovery};
ghost use Rattle.mq_image_ops.specs.Recovering.{IsRecoveryOf};
ghost use Rattle.mq_image_ops.specs.Standing.{Reads, RefusesDrive};
ghost use Rattle.mq_image_ops.specs.Starts.{AreFreshSeats};
ghost use Rattle.mq_recover.specs.Drives.{AreBoundsKept, IsQuiescentDrive, drive_of, faults_on};
ghost use Rattle.mq_recover.specs.Images.{IsReadableImage, RefusesImage};

use crate::cut::{CutDrive, cut_ports};
use crate::ports::{drive_power, start_ports};
use crate::width::an_image_fits_its_file;
use mq_blocks::Geometry;
use mq_drive::{EmuPort, Fuse, FuseSeat, Ports};
use mq_image::DriveImage;
use mq_recover::{ImageFault, RecoverRefusal, Recovered, find_prefix, recover};
use std::alloc::Global;

/// What a recovery leaves of an image, and what it found.
#[derive(Drop)]
pub struct RecoveredImage {
    /// The drive after the recovery, or what a cut of its power left.
    pub image: DriveImage,
    /// The number of transactions that stood above the old base, and the greatest number that the image
    /// showed.
    pub found: Recovered,
    /// The number of events after which the recovery was cut, if it was.
    pub cut: Option<u64>,
}

// How a recovery ended: what it found, and whether it was whole.
#[derive(Clone, Copy)]
struct Run {
    found: Recovered,
    whole: bool,
}

// Where no command fails, a recovery is refused by its power or by its image.
fn check_power(refusal: RecoverRefusal) -> Result<(), ImageFault>
    requires { (block status : ℕ) → refusal ≡ RecoverRefusal.Failed block status → ⊥ }
    ensures off { OnOk result (refusal ≡ RecoverRefusal.Off) }
    ensures image { IfErr result (λ e. refusal ≡ RecoverRefusal.Image e) }
{
    match refusal {
        RecoverRefusal::Off => Ok(()),
        RecoverRefusal::Image(fault) => Err(fault),
        RecoverRefusal::Failed { .. } => unreachable!(),
    }
}

// Recovers a drive whose power may go off. What there is to find is looked up before, since a recovery that
// was cut does not report it.
fn recover_ports(
    alloc: Global,
    geometry: Geometry,
    ports: &mut Ports<EmuPort<'_>>,
) -> Result<Run, ImageFault>
    requires still { IsQuiescentDrive geometry (drive_of emu_state ports.old) }
    requires sound { AreSound geometry ports.old }
    ensures ok { IfOk result (λ r. HasRun geometry (drive_of emu_state ports.old) (drive_of emu_state ports.new)
        (faults_on emu_faults ports.old) (faults_on emu_faults ports.new) r.found r.whole) }
    ensures bounds { AreBoundsKept geometry (drive_of emu_state ports.old) (drive_of emu_state ports.new) }
    ensures refused { IfErr result (λ e. (e ≡ ImageFault.OutOfMemory)
        ⊎ RefusesImage geometry (drive_of emu_state ports.old) e) }
    ensures complete { IsReadableImage geometry (drive_of emu_state ports.old)
        → IsOkUnless result ImageFault.OutOfMemory }
{
    let looked = find_prefix(alloc, geometry, ports)?;
    match recover(alloc, geometry, ports) {
        Ok(found) => Ok(Run { found, whole: true }),
        Err(refusal) => {
            check_power(refusal)?;
            Ok(Run {
                found: looked,
                whole: false,
            })
        }
    }
}

// Recovers the drive that starts from an image with the power of a fuse, until the power goes off or to the
// end, and cuts the power of all its ports then.
fn recover_until(
    alloc: Global,
    fuse: &Fuse,
    seats: Vec<FuseSeat>,
    image: DriveImage,
    pick: u64,
) -> Result<(Run, CutDrive), ImageFault>
    requires seats { AreFreshSeats (name_of fuse.now) (queues_of image.geometry + 1) seats.items }
    requires image { IsDrive image }
    ensures ok { IfOk result (λ r. IsLeftBy image (name_of fuse.now) r.0.found r.0.whole r.1.images.items
        r.1.seats.items) }
    ensures chosen { IfOk result (λ r. IsPicked image pick (name_of fuse.now) r.0.found r.0.whole
        r.1.images.items r.1.seats.items) }
    ensures refused { IfErr result (λ e. (e ≡ ImageFault.OutOfMemory) ⊎ RefusesDrive image e) }
    ensures complete { (ds : List Descriptor) (top : ℕ)
        → Reads image ds top
        → IsOkUnless result ImageFault.OutOfMemory }
{
    let geometry = image.geometry;
    let mut ports = start_ports(alloc, fuse, seats, image, None, pick)?;
    let ran = recover_ports(alloc, geometry, &mut ports)?;
    let left = cut_ports(alloc, ports, pick)?;
    Ok((ran, left))
}

/// Recovers the drive that starts from an image. Its power goes off after `cut` events, if one is given,
/// and what the cut leaves of what is uncertain then follows from `pick`.
pub fn recover_image(
    alloc: Global,
    image: DriveImage,
    cut: Option<u64>,
    pick: u64,
) -> Result<RecoveredImage, ImageFault>
    requires image { IsDrive image }
    requires cut { ForSome cut (λ k. k ≤ 2 ^ 63) }
    ensures ok { IfOk result (IsRecoveryOf image cut) }
    ensures chosen { IfOk result (IsPickedRecovery image cut pick) }
    ensures refused { IfErr result (λ e. (e ≡ ImageFault.OutOfMemory) ⊎ RefusesDrive image e) }
    ensures complete { (ds : List Descriptor) (top : ℕ)
        → Reads image ds top
        → IsOkUnless result ImageFault.OutOfMemory }
{
    let geometry = image.geometry;
    let (fuse, seats) = drive_power(alloc, geometry, cut)?;
    let (ran, left) = recover_until(alloc, &fuse, seats, image, pick)?;
    let CutDrive { images, seats } = left;
    let events = fuse.close(seats);
    let recovered = DriveImage {
        geometry,
        ports: images,
    };
    an_image_fits_its_file(&recovered);
    Ok(RecoveredImage {
        image: recovered,
        found: ran.found,
        cut: cut_after(ran.whole, events),
    })
}

// After how many events a recovery was cut, where it was.
fn cut_after(whole: bool, events: u64) -> Option<u64>
    ensures { result ≡ (if whole then None else Some events) }
{
    if whole { None } else { Some(events) }
}
