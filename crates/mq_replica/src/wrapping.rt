// The ports of a drive, each as a port that keeps what is certain of its journal area.
ghost use Rattle.std.specs.Prelude.{◌≡◌, ◌<◌, [], false, IfErr, IfOk, length, vec_capacity};
ghost use Rattle.mq_blocks.specs.declared.geometry.Geometry as geometry;
ghost use Rattle.mq_recover.specs.Drives.{IsQuiescentDrive, drive_of};
ghost use Rattle.mq_replica.specs.Held.{IsReady, is_stopped, ports_in, ports_of};
ghost use Rattle.mq_replica.specs.Views.{below, faults_below};

use crate::applying::take_apart;
use crate::certain::CertainPort;
use crate::held::Held;
use mq_drive::{Port, Ports};
use std::alloc::Global;

/// Wraps the ports of a drive of one queue. Returns the list that they stood in too, which is empty then,
/// so that they are unwrapped without memory. Out of memory gives the ports back.
pub fn wrap_ports<P: Port + Drop>(
    alloc: Global,
    ports: Ports<P>,
) -> Result<(Ports<CertainPort<P>>, Vec<P>), Ports<P>>
    requires one { length ports.queues.items ≡ 1 }
    requires quiet { (g : geometry.Geometry) × IsQuiescentDrive g (drive_of P.state ports) }
    ensures ports { IfOk result (λ r. ports_of (below P.state) (faults_below P.faults) r.0
        ≡ ports_of P.state P.faults ports) }
    ensures spare { IfOk result (λ r. (r.1.items ≡ []) × (0 < vec_capacity r.1)) }
    ensures one { IfOk result (λ r. length r.0.queues.items ≡ 1) }
    ensures err { IfErr result (λ back. back ≡ ports) }
{
    let Ok(mut wrapped) = Vec::with_capacity(alloc, 1) else {
        return Err(ports);
    };
    let Ports { mut queues, root } = ports;
    let Some(port) = queues.pop() else {
        unreachable!()
    };
    wrapped.push_reserved(CertainPort::new(port));
    let ports = Ports {
        queues: wrapped,
        root: CertainPort::new(root),
    };
    Ok((ports, queues))
}

/// The ports as they were given, in an empty list with room for the queue's.
pub fn unwrap_ports<P: Port + Drop>(ports: Ports<CertainPort<P>>, spare: Vec<P>) -> Ports<P>
    requires one { length ports.queues.items ≡ 1 }
    requires empty { spare.items ≡ [] }
    requires room { 0 < vec_capacity spare }
    ensures { ports_of P.state P.faults result
        ≡ ports_of (below P.state) (faults_below P.faults) ports }
{
    let Ports { mut queues, root } = ports;
    let mut spare = spare;
    let Some(port) = queues.pop() else {
        unreachable!()
    };
    spare.push_reserved(port.into_inner());
    Ports {
        queues: spare,
        root: root.into_inner(),
    }
}

/// The ports that a replica holds. It takes no memory.
pub fn held_ports<P: Port + Drop>(held: Held<CertainPort<P>>) -> Ports<CertainPort<P>>
    requires { (g : geometry.Geometry) × ∥ IsReady (below P.state) (faults_below P.faults) g held ∥₁ }
    ensures ports { ports_of (below P.state) (faults_below P.faults) result
        ≡ ports_in (below P.state) (faults_below P.faults) held }
    ensures one { length result.queues.items ≡ 1 }
    ensures quiet { (g : geometry.Geometry)
        → ∥ IsReady (below P.state) (faults_below P.faults) g held ∥₁
        → is_stopped held ≡ false
        → IsQuiescentDrive g (drive_of (below P.state) result) }
{
    match held {
        Held::Opened(opened) => take_apart(opened),
        Held::Apart(ports) => ports,
        Held::Stopped(ports) => ports,
    }
}
