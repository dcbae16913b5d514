// The cut of the power of all ports of a drive.
ghost use Rattle.std.specs.Prelude.{◌≡◌, ◌+◌, IfOk};
ghost use Rattle.mq_image_ops.specs.Cuts.{AreCutPorts, IsCutPort, row_of};

use mq_blocks::OutOfMemory;
use mq_drive::{EmuPort, FuseSeat, PortImage, Ports};
use std::alloc::Global;

/// What a cut of the power leaves of a drive: one image and one seat for each port, the queues' in order
/// and then the root's.
#[derive(Drop)]
pub struct CutDrive {
    /// What was certain on each port, and what was chosen of the rest: with a geometry, the image of a
    /// drive.
    pub images: Vec<PortImage>,
    /// The seats of the ports, with one ticket for each event that a port tried to make. `Fuse::close`
    /// needs them.
    pub seats: Vec<FuseSeat>,
}

// What a cut of the power leaves of a port by this pick, and its seat.
fn cut_port(port: EmuPort<'_>, pick: u64) -> (PortImage, FuseSeat)
    ensures { IsCutPort pick port.entry result.0 result.1 }
{
    port.cut(pick)
}

/// Cuts the power of all ports of a drive, the queues' in order and then the root's. What each cut leaves
/// of what is uncertain follows from `pick` and the port's number.
pub fn cut_ports(
    alloc: Global,
    ports: Ports<EmuPort<'_>>,
    pick: u64,
) -> Result<CutDrive, OutOfMemory>
    ensures { IfOk result (λ left. AreCutPorts pick (row_of ports.entry) left.images.items left.seats.items) }
{
    let Ports { queues, root } = ports;
    let count = queues.len() + 1;
    let mut images = Vec::with_capacity(alloc, count)?;
    let mut seats = Vec::with_capacity(alloc, count)?;
    for port in queues {
        let (image, seat) = cut_port(port, pick);
        images.push(image)?;
        seats.push(seat)?;
    }
    let (image, seat) = cut_port(root, pick);
    images.push(image)?;
    seats.push(seat)?;
    Ok(CutDrive { images, seats })
}
