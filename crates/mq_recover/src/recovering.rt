// Recovery from the descriptors that were chosen to stand.
ghost use Rattle.std.specs.Prelude.{◌≡◌, ◌≤◌, List, length, OnOk};
ghost use Rattle.mq_blocks.specs.Descriptor.{Descriptor as Text};
ghost use Rattle.mq_recover.specs.Copies.{AreCopies};
ghost use Rattle.mq_recover.specs.Drives.{AreBoundsKept, IsQuiescentDrive, drive_of, faults_on};
ghost use Rattle.mq_recover.specs.RecoverCauses.{HasDriveCause, OnDrive, OnImage};
ghost use Rattle.mq_recover.specs.Recovering.{AreHeadsLow, HasStopped, HasWritten, HaveCopies};

use crate::contents::read_copies;
use crate::copies::CopyPlace;
use crate::homes::{move_heads, raise_base, write_homes};
use crate::refusal::{ImageFault, RecoverRefusal};
use mq_blocks::{Geometry, TxNo};
use mq_drive::{Port, Ports};
use std::alloc::Global;

/// Recovers a drive from the descriptors that were chosen, which left these copies of home blocks, by
/// whatever rule: the blocks with copies are written home, in rising order, then the base becomes this
/// one, and then each head goes to its doorbell, in rising order of queues. All copies are read first,
/// and all memory is taken then.
pub fn recover_chosen<P: Port>(
    alloc: Global,
    geometry: Geometry,
    ports: &mut Ports<P>,
    copies: &[Option<CopyPlace>],
    base: TxNo,
) -> Result<(), RecoverRefusal>
    requires still { IsQuiescentDrive geometry (drive_of P.state ports.old) }
    requires copies { HaveCopies geometry copies.now }
    requires low { (P.state ports.old.root).base ≤ base }
    requires heads { AreHeadsLow geometry (drive_of P.state ports.old) }
    ensures ok { (ds : List Text)
        → AreCopies geometry ds copies.now
        → OnOk result (HasWritten geometry
        (drive_of P.state ports.old) ds base
        (drive_of P.state ports.new)) }
    ensures image { OnImage result (λ fault. (drive_of P.state ports.new ≡ drive_of P.state ports.old)
        × (fault ≡ ImageFault.OutOfMemory)) }
    ensures drive { (ds : List Text)
        → AreCopies geometry ds copies.now
        → OnDrive result (λ e. HasStopped geometry e
        (drive_of P.state ports.old) ds base
        (drive_of P.state ports.new)) }
    ensures count { length ports.new.queues.items ≡ length ports.old.queues.items }
    ensures bounds { AreBoundsKept geometry (drive_of P.state ports.old)
        (drive_of P.state ports.new) }
    ensures cause { HasDriveCause geometry result
        (faults_on P.faults ports.old)
        (faults_on P.faults ports.new) }
{
    let writes = read_copies(alloc, geometry, ports, copies)?;
    write_homes(geometry, ports, writes)?;
    raise_base(&mut ports.root, base)?;
    move_heads(&mut ports.queues)?;
    Ok(())
}
