// A drive on which something is played, with its fuse.
ghost use Rattle.std.specs.Prelude.{◌≡◌, ◌+◌, ◌≤◌, ◌^◌, Err, IfErr, IfOk, None, Ok};
ghost use Rattle.mq_blocks.specs.Geometry.{queues_of};
ghost use Rattle.mq_drive.specs.Seats.{name_of, ports_of};
ghost use Rattle.mq_image.specs.File.{DriveImage as Image};
ghost use Rattle.mq_image_ops.specs.Recovering.{IsRecoveryOf};
ghost use Rattle.mq_image_ops.specs.Starts.{AreFreshSeats};
ghost use Rattle.mq_image_run.specs.Drives.{AreKept, HasStopped, IsReady, IsUndriven};

use crate::driving::{Driven, play_on_drive};
use crate::options::DriveOptions;
use crate::unplayed::Unplayed;
use mq_drive::{EmuPort, Fuse, FuseSeat, Ports};
use mq_image_ops::RecoveredImage;
use std::alloc::Global;

/// What was played on a drive, and the number of events that happened.
#[derive(Drop)]
pub struct Stopped<T> {
    pub driven: Driven<T>,
    /// The number of events that happened if the fuse has a limit, else 0.
    pub events: u64,
}

/// Plays on the drive that starts from a recovered image, with the power of a fuse, cuts its power at the end,
/// and closes the fuse.
pub fn play_to_stop<
    T: Drop,
    E,
    F: for<'f> FnOnce(Ports<EmuPort<'f>>) -> Result<(T, Ports<EmuPort<'f>>), E>,
>(
    alloc: Global,
    fuse: Fuse,
    seats: Vec<FuseSeat>,
    recovered: RecoveredImage,
    options: DriveOptions,
    play: F,
) -> Result<Stopped<T>, Unplayed<E>>
    requires recovery { (x : Image) × IsRecoveryOf x None recovered }
    requires base { recovered.found.base ≤ 2 ^ 62 }
    requires ports { ports_of fuse ≡ queues_of recovered.image.geometry + 1 }
    requires seats { AreFreshSeats (name_of fuse) (queues_of recovered.image.geometry + 1) seats.items }
    requires may { (ports : _) → IsReady recovered.image.geometry ports → F.pre play ports }
    requires keeps { (ports : _) (r : _) → F.post play ports (Ok r)
        → AreKept recovered.image.geometry ports r.1 }
    ensures ok { IfOk result (λ s. HasStopped (λ ports t end. F.post play ports (Ok (t, end)))
        (name_of fuse) recovered.image options s.driven.played s.driven.failed s.driven.images.items
        s.events) }
    ensures refused { IfErr result (IsUndriven (λ ports e. F.post play ports (Err e)) (name_of fuse)
        options.fail recovered.image) }
{
    let (driven, seats) = play_on_drive(alloc, &fuse, seats, recovered, options, play)?;
    let events = fuse.close(seats);
    Ok(Stopped { driven, events })
}
