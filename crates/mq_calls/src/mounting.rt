// A file system is mounted: it is opened over the ports of a drive that was recovered, where one lies
// there.
ghost use Rattle.std.specs.Prelude.{◌≡◌, ◌≤◌, ◌^◌, ℕ, IfOk, IfErr, Some, slice_get, vec_len};
ghost use Rattle.mq_blocks.specs.Geometry.{queues_of};
ghost use Rattle.mq_recover.specs.Drives.{IsQuiescentDrive, drive_of};
ghost use Rattle.mq_recover.specs.Recovery.{IsStartDrive};
ghost use Rattle.mq_recover.specs.Standing.{StandsIn};
ghost use Rattle.mq_turns.specs.AtDesk.{AtDesk, view, start_of, chairs_of};
ghost use Rattle.mq_calls.specs.Mounting.{IsMountedOver, IsNotMounted};
ghost use Rattle.mq_calls.specs.Opening.{IsNewSession, MayOpen};

use crate::session::{Mqfs, Session};
use mq_blocks::Geometry;
use mq_drive::{Port, Ports};
use mq_recover::{ImageFault, Standing, stands};
use mq_tree::MountRefusal;
use std::alloc::Global;

// The tree on a drive that was recovered is refused only as out of memory.
fn only_memory(fault: ImageFault) -> MountRefusal
    requires { fault ≡ ImageFault.OutOfMemory }
    ensures { result ≡ MountRefusal.OutOfMemory }
{
    match fault {
        ImageFault::OutOfMemory => MountRefusal::OutOfMemory,
        _ => unreachable!(),
    }
}

/// What stands on the ports of a drive that was recovered, if it is a file system. `Mqfs::open` needs this.
pub fn find_volume<P: Port>(
    alloc: Global,
    geometry: Geometry,
    ports: &Ports<P>,
) -> Result<Standing, MountRefusal>
    requires still { IsQuiescentDrive geometry (drive_of P.state ports.now) }
    requires start { IsStartDrive geometry (drive_of P.state ports.now) }
    ensures stands { IfOk result (StandsIn geometry (drive_of P.state ports.now)) }
    ensures open { IfOk result (MayOpen geometry (drive_of P.state ports.now)) }
    ensures refused { IfErr result (IsNotMounted geometry (drive_of P.state ports.now)) }
{
    let standing = match stands(alloc, geometry, ports) {
        Ok(standing) => standing,
        Err(fault) => return Err(only_memory(fault)),
    };
    match mq_tree::mount(alloc, geometry, &standing.blocks) {
        Ok(_) => Ok(standing),
        Err(refusal) => Err(refusal),
    }
}

impl<P: Port + Drop> Mqfs<P> {
    /// Opens the file system that stands on the ports of a drive that was recovered, with `sessions`
    /// sessions, the i-th on the i-th queue. A refusal gives the ports back as they were. Nothing is
    /// written.
    pub fn mount(
        alloc: Global,
        geometry: Geometry,
        ports: Ports<P>,
        sessions: u32,
    ) -> Result<(Mqfs<P>, Vec<Session<P>>), (Ports<P>, MountRefusal)>
        requires still { IsQuiescentDrive geometry (drive_of P.state ports) }
        requires start { IsStartDrive geometry (drive_of P.state ports) }
        requires base { (P.state ports.root).base ≤ 2 ^ 62 }
        requires sessions { (1 ≤ sessions) × (sessions ≤ queues_of geometry) }
        ensures desk { IfOk result (λ r. IsMountedOver P.state P.faults geometry ports (start_of r.0.desk)) }
        ensures chairs { IfOk result (λ r. chairs_of r.0.desk ≡ sessions) }
        ensures geometry { IfOk result (λ r. r.0.geometry ≡ geometry) }
        ensures count { IfOk result (λ r. vec_len r.1 ≡ sessions) }
        ensures each { IfOk result (λ r. (i : ℕ) (s : _)
            → slice_get r.1.items i ≡ Some s
            → AtDesk r.0.desk s.chair
            × IsNewSession geometry (start_of r.0.desk) i s.queue s.calls s.wanted.items s.held
            (view s.chair)) }
        ensures err { IfErr result (λ e. (e.0.queues.items ≡ ports.queues.items) × (e.0.root ≡ ports.root)) }
        ensures refused { IfErr result (λ e. IsNotMounted geometry (drive_of P.state ports) e.1) }
    {
        let standing = match find_volume(alloc, geometry, &ports) {
            Ok(standing) => standing,
            Err(refusal) => return Err((ports, refusal)),
        };
        match Mqfs::open(alloc, geometry, ports, standing, sessions) {
            Ok(opened) => Ok(opened),
            Err((ports, _)) => Err((ports, MountRefusal::OutOfMemory)),
        }
    }
}
