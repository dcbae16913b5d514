// A drive on which something is played, from its start to the cut of its power.
ghost use Rattle.std.specs.Prelude.{◌≡◌, ◌+◌, ◌≤◌, ◌^◌, Err, IfErr, IfOk, None, Ok};
ghost use Rattle.mq_blocks.specs.Geometry.{queues_of};
ghost use Rattle.mq_drive.specs.Seats.{name_of};
ghost use Rattle.mq_image.specs.File.{DriveImage as Image};
ghost use Rattle.mq_image_ops.specs.Cuts.{row_of};
ghost use Rattle.mq_image_ops.specs.Recovering.{IsRecoveryOf};
ghost use Rattle.mq_image_ops.specs.Starts.{AreFreshSeats};
ghost use Rattle.mq_image_run.specs.Drives.{AreKept, IsDriven, IsReady, IsUndriven, has_failed};

use crate::options::DriveOptions;
use crate::unplayed::Unplayed;
use mq_drive::{EmuPort, Fuse, FuseSeat, PortImage, Ports};
use mq_image_ops::{
    CutDrive, RecoveredImage, a_recovered_image_holds_what_stood, a_recovered_image_starts,
    cut_ports, start_ports,
};
use std::alloc::Global;

/// What was played on a drive, and what a cut of its power left.
#[derive(Drop)]
pub struct Driven<T> {
    pub played: T,
    /// Whether the command that was to fail was executed.
    pub failed: bool,
    /// One image for each port, the root's last.
    pub images: Vec<PortImage>,
}

// Whether the command that was to fail was executed on one of the ports.
fn any_failed(ports: &Ports<EmuPort<'_>>) -> bool
    ensures { result ≡ has_failed (row_of ports.now) }
{
    for port in &ports.queues {
        if port.failed() {
            return true;
        }
    }
    ports.root.failed()
}

/// Plays on the drive that starts from a recovered image, with the power of a fuse, and cuts its power at the
/// end. The seats of its ports come back.
pub fn play_on_drive<
    T: Drop,
    E,
    F: for<'f> FnOnce(Ports<EmuPort<'f>>) -> Result<(T, Ports<EmuPort<'f>>), E>,
>(
    alloc: Global,
    fuse: &Fuse,
    seats: Vec<FuseSeat>,
    recovered: RecoveredImage,
    options: DriveOptions,
    play: F,
) -> Result<(Driven<T>, Vec<FuseSeat>), Unplayed<E>>
    requires recovery { (x : Image) × IsRecoveryOf x None recovered }
    requires base { recovered.found.base ≤ 2 ^ 62 }
    requires seats { AreFreshSeats (name_of fuse.now) (queues_of recovered.image.geometry + 1) seats.items }
    requires may { (ports : _) → IsReady recovered.image.geometry ports → F.pre play ports }
    requires keeps { (ports : _) (r : _) → F.post play ports (Ok r)
        → AreKept recovered.image.geometry ports r.1 }
    ensures ok { IfOk result (λ r. IsDriven (λ ports t end. F.post play ports (Ok (t, end)))
        (name_of fuse.now) recovered.image options r.0.played r.0.failed r.0.images.items r.1.items) }
    ensures refused { IfErr result (IsUndriven (λ ports e. F.post play ports (Err e)) (name_of fuse.now)
        options.fail recovered.image) }
{
    let image = recovered.image;
    let ports = start_ports(alloc, fuse, seats, image, options.fail, options.pick)?;
    a_recovered_image_starts();
    a_recovered_image_holds_what_stood();
    let (played, ports) = match play(ports) {
        Ok(end) => end,
        Err(refusal) => return Err(Unplayed::Refused(refusal)),
    };
    let failed = any_failed(&ports);
    let CutDrive { images, seats } = cut_ports(alloc, ports, options.pick)?;
    let driven = Driven {
        played,
        failed,
        images,
    };
    Ok((driven, seats))
}
