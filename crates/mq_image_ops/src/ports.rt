// The drive that starts from an image, one of whose commands may fail.
ghost use Rattle.std.specs.Prelude.{◌≡◌, ◌+◌, ◌≤◌, ◌^◌, IfOk, All, None};
ghost use Rattle.std.specs.Option.{ForSome};
ghost use Rattle.mq_blocks.specs.Geometry.{queues_of};
ghost use Rattle.mq_drive.specs.Emu.{drawn_by, emu_faults, emu_state};
ghost use Rattle.mq_drive.specs.Seats.{name_of, ports_of};
ghost use Rattle.mq_drive.specs.Start.{IsImageOf, IsRole, start_of};
ghost use Rattle.mq_image.specs.Drives.{IsDrive};
ghost use Rattle.mq_image_ops.specs.Starts.{AreFreshSeats, AreSeeded, AreStarted, IsFreshPort, IsFreshSeat};
ghost use Rattle.mq_image_ops.specs.Views.{command_of};

use mq_blocks::{Geometry, OutOfMemory, QueueNo};
use mq_drive::{EmuPort, Fuse, FuseSeat, Ports, Role};
use mq_image::DriveImage;
use std::alloc::Global;

/// A command of a drive that has to fail: it ends with the status Write Fault. If no command has these
/// numbers, none fails.
#[derive(Clone, Copy)]
pub struct Failing {
    /// The number of its port: that of a queue, from 0 on, or of the root, which comes after all queues.
    pub port: u64,
    /// Which command of this port it is, counted from 1 over executed entries and home writes alike.
    pub command: u64,
}

// Which command of the port with this number is to fail, where some command of it is.
fn failing_of(fail: Option<Failing>, port: u32) -> Option<u64>
    ensures { result ≡ command_of fail port }
{
    match fail {
        Some(failing) if failing.port == u64::from(port) => Some(failing.command),
        _ => None,
    }
}

/// A fuse that lets `limit` events happen, or all of them if there is no limit, with a seat for each port
/// of a drive.
pub fn drive_power(
    alloc: Global,
    geometry: Geometry,
    limit: Option<u64>,
) -> Result<(Fuse, Vec<FuseSeat>), OutOfMemory>
    requires { ForSome limit (λ l. l ≤ 2 ^ 63) }
    ensures fuse { IfOk result (λ r. ((name_of r.0).limit ≡ limit) × (ports_of r.0 ≡ queues_of geometry + 1)) }
    ensures seats { IfOk result (λ r. AreFreshSeats (name_of r.0) (queues_of geometry + 1) r.1.items) }
{
    Fuse::new(alloc, limit, geometry.queues() + 1)
}

/// The ports of a drive that starts from an image, with the power of a fuse and with a seat of it for each
/// port, the root's last. The command `fail` of the port that it names, if one is given, has to fail.
/// `seed` and a port's number choose the order in which posted commands are executed.
pub fn start_ports<'f>(
    alloc: Global,
    fuse: &'f Fuse,
    seats: Vec<FuseSeat>,
    image: DriveImage,
    fail: Option<Failing>,
    seed: u64,
) -> Result<Ports<EmuPort<'f>>, OutOfMemory>
    requires seats { AreFreshSeats (name_of fuse.now) (queues_of image.geometry + 1) seats.items }
    requires image { IsDrive image }
    ensures drive { IfOk result (AreStarted (name_of fuse.now) fail image) }
    ensures chance { IfOk result (AreSeeded image.geometry seed) }
{
    let DriveImage { geometry, ports } = image;
    let mut images = ports;
    let mut seats = seats;
    let mut queues = Vec::with_capacity(alloc, geometry.queues() as usize)?;
    for q in 0..geometry.queues() {
        let image = images.remove(0);
        let seat = seats.remove(0);
        let role = Role::Queue(QueueNo(q));
        let command = failing_of(fail, q);
        queues.push(EmuPort::new(alloc, fuse, seat, geometry, role, image, command, seed)?)?;
    }
    let image = images.remove(0);
    let seat = seats.remove(0);
    let command = failing_of(fail, geometry.queues());
    let root = EmuPort::new(
        alloc,
        fuse,
        seat,
        geometry,
        Role::Root,
        image,
        command,
        seed,
    )?;
    Ok(Ports { queues, root })
}
