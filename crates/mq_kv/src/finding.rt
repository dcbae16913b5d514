// What stands on the ports of a drive that was recovered, as a store is opened with it.
ghost use Rattle.std.specs.Prelude.{◌≡◌, ◌<◌, ℕ, IfOk};
ghost use Rattle.mq_blocks.specs.Blocks.{block_at};
ghost use Rattle.mq_blocks.specs.Geometry.{homes_of};
ghost use Rattle.mq_kv.specs.Opening.{MayOpen};
ghost use Rattle.mq_recover.specs.Drives.{IsQuiescentDrive, drive_of, view_over};
ghost use Rattle.mq_recover.specs.Recovery.{IsStartDrive};
ghost use Rattle.mq_recover.specs.Standing.{StandsIn};

use mq_blocks::{Geometry, OutOfMemory};
use mq_drive::{Port, Ports};
use mq_recover::{ImageFault, Standing, stands};
use std::alloc::Global;

// A drive that was recovered is refused only as out of memory.
fn only_memory(fault: ImageFault) -> OutOfMemory
    requires { fault ≡ ImageFault.OutOfMemory }
{
    match fault {
        ImageFault::OutOfMemory => OutOfMemory,
        _ => unreachable!(),
    }
}

/// What stands on the ports of a drive that was recovered, which is what they have at home. `Kv::open` needs
/// this.
pub fn find_store<P: Port>(
    alloc: Global,
    geometry: Geometry,
    ports: &Ports<P>,
) -> Result<Standing, OutOfMemory>
    requires still { IsQuiescentDrive geometry (drive_of P.state ports.now) }
    requires start { IsStartDrive geometry (drive_of P.state ports.now) }
    ensures stands { IfOk result (StandsIn geometry (drive_of P.state ports.now)) }
    ensures homes { IfOk result (λ s. (b : ℕ) → b < homes_of geometry
        → block_at s.blocks.items b ≡ (view_over geometry (drive_of P.state ports.now)).home b) }
    ensures open { IfOk result (MayOpen geometry (drive_of P.state ports.now)) }
{
    match stands(alloc, geometry, ports) {
        Ok(standing) => Ok(standing),
        Err(fault) => Err(only_memory(fault)),
    }
}
