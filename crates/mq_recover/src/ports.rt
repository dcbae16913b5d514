// Recovery: what stands is written home, the base is raised past it, and the heads go to the
// doorbells.
ghost use Rattle.std.specs.Prelude.{◌≡◌, ◌⊎◌, length, IfOk, IsErrOf};
ghost use Rattle.mq_recover.specs.Drives.{AreBoundsKept, IsQuiescentDrive, drive_of, faults_on};
ghost use Rattle.mq_recover.specs.RecoverCauses.{HasDriveCause, OnImage, OnDrive, UnlessImage};
ghost use Rattle.mq_recover.specs.Images.{IsReadableImage, RefusesImage};
ghost use Rattle.mq_recover.specs.Steps.{HasRecovered, IsCutShort};

use crate::choice::{Recovered, find_copies};
use crate::recovering::recover_chosen;
use crate::refusal::{ImageFault, RecoverRefusal};
use mq_blocks::Geometry;
use mq_drive::{Port, Ports};
use std::alloc::Global;

/// Recovers a drive through its ports: the home blocks become what stands, in rising order, then the
/// base becomes the greatest number that the image shows, and then each head goes to its doorbell, in
/// rising order of queues. All reads and checks come first, and all memory is taken then. After `Off`
/// and `Failed` the call may be made again on what a power cut leaves.
pub fn recover<P: Port>(
    alloc: Global,
    geometry: Geometry,
    ports: &mut Ports<P>,
) -> Result<Recovered, RecoverRefusal>
    requires { IsQuiescentDrive geometry (drive_of P.state ports.old) }
    ensures ok { IfOk result (λ r. HasRecovered geometry
        (drive_of P.state ports.old) r.prefix r.base
        (drive_of P.state ports.new)) }
    ensures image { OnImage result (λ fault. (drive_of P.state ports.new ≡ drive_of P.state ports.old)
        × ((fault ≡ ImageFault.OutOfMemory)
        ⊎ RefusesImage geometry (drive_of P.state ports.old) fault)) }
    ensures exact { (e : ImageFault)
        → RefusesImage geometry (drive_of P.state ports.old) e
        → IsErrOf result (RecoverRefusal.Image e)
        ⊎ IsErrOf result (RecoverRefusal.Image ImageFault.OutOfMemory) }
    ensures readable { UnlessImage result (IsReadableImage geometry
        (drive_of P.state ports.old)) }
    ensures complete { IsReadableImage geometry (drive_of P.state ports.old)
        → OnImage result (λ fault. fault ≡ ImageFault.OutOfMemory) }
    ensures drive { OnDrive result (λ e. IsCutShort geometry e
        (drive_of P.state ports.old)
        (drive_of P.state ports.new)) }
    ensures count { length ports.new.queues.items ≡ length ports.old.queues.items }
    ensures bounds { AreBoundsKept geometry (drive_of P.state ports.old)
        (drive_of P.state ports.new) }
    ensures cause { HasDriveCause geometry result
        (faults_on P.faults ports.old)
        (faults_on P.faults ports.new) }
{
    let found = find_copies(alloc, geometry, ports)?;
    recover_chosen(alloc, geometry, ports, &found.copies, found.recovered.base)?;
    Ok(found.recovered)
}
