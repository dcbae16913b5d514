// Recovery of a drive of the loose order.
ghost use Rattle.std.specs.Prelude.{◌≡◌, ◌⊎◌, length, IfOk, IsErrOf};
ghost use Rattle.mq_loose_recover.specs.Images.{IsReadableLooseImage, RefusesLooseImage};
ghost use Rattle.mq_loose_recover.specs.Standing.{HasLooselyRecovered, IsLooselyCutShort};
ghost use Rattle.mq_recover.specs.Drives.{AreBoundsKept, IsQuiescentDrive, drive_of, faults_on};
ghost use Rattle.mq_recover.specs.RecoverCauses.{HasDriveCause, OnDrive, OnImage, UnlessImage};

use crate::standing::{LooseStanding, find_copies};
use mq_blocks::Geometry;
use mq_drive::{Port, Ports};
use mq_recover::{ImageFault, RecoverRefusal, read_blocks, recover_chosen};
use std::alloc::Global;

/// Recovers a drive of the loose order through its ports: the home blocks become what stands, in rising order,
/// then the base becomes the greatest number that the image shows, and then each head goes to its doorbell, in
/// rising order of queues. All reads and checks come first, and all memory is taken then. It answers what stood
/// at entry, with the new base. After `Off` and `Failed` the call may be made again on what a power cut leaves.
pub fn loose_recover<P: Port>(
    alloc: Global,
    geometry: Geometry,
    ports: &mut Ports<P>,
) -> Result<LooseStanding, RecoverRefusal>
    requires { IsQuiescentDrive geometry (drive_of P.state ports.old) }
    ensures ok { IfOk result (λ r. HasLooselyRecovered geometry
        (drive_of P.state ports.old) r
        (drive_of P.state ports.new)) }
    ensures image { OnImage result (λ fault. (drive_of P.state ports.new ≡ drive_of P.state ports.old)
        × ((fault ≡ ImageFault.OutOfMemory)
        ⊎ RefusesLooseImage geometry (drive_of P.state ports.old) fault)) }
    ensures exact { (e : ImageFault)
        → RefusesLooseImage geometry (drive_of P.state ports.old) e
        → IsErrOf result (RecoverRefusal.Image e)
        ⊎ IsErrOf result (RecoverRefusal.Image ImageFault.OutOfMemory) }
    ensures readable { UnlessImage result (IsReadableLooseImage geometry
        (drive_of P.state ports.old)) }
    ensures complete { IsReadableLooseImage geometry (drive_of P.state ports.old)
        → OnImage result (λ fault. fault ≡ ImageFault.OutOfMemory) }
    ensures drive { OnDrive result (λ e. IsLooselyCutShort geometry e
        (drive_of P.state ports.old)
        (drive_of P.state ports.new)) }
    ensures count { length ports.new.queues.items ≡ length ports.old.queues.items }
    ensures bounds { AreBoundsKept geometry (drive_of P.state ports.old)
        (drive_of P.state ports.new) }
    ensures cause { HasDriveCause geometry result
        (faults_on P.faults ports.old)
        (faults_on P.faults ports.new) }
{
    let found = find_copies(alloc, geometry, ports)?;
    let blocks = read_blocks(alloc, geometry, ports, &found.copies)?;
    recover_chosen(alloc, geometry, ports, &found.copies, found.top)?;
    Ok(LooseStanding {
        blocks,
        set: found.set,
        base: found.top,
        top: found.top,
    })
}
