// The sides of all queues over their ports.
ghost use Rattle.std.specs.Prelude.{◌≡◌, ◌+◌, ◌≤◌, ◌++◌, ℕ, [], Some, IfOk, IfErr, map, reverse, slice_get, vec_len, vec_capacity};
ghost use Rattle.mq_queue_side.specs.Opening.{IsIdle, IsNewSide};

use crate::QueueSide;
use mq_blocks::{Geometry, OutOfMemory, QueueNo};
use mq_drive::Port;
use mq_pmr::PmrQueue;
use std::alloc::Global;

// The side of a queue over its port.
fn open_side<P: Port, E>(
    alloc: Global,
    geometry: Geometry,
    queue: QueueNo,
    port: P,
) -> Result<QueueSide<P, E>, (P, OutOfMemory)>
    requires { IsIdle geometry queue (P.state port) }
    ensures port { IfOk result (λ s. s.pmr.port ≡ port) }
    ensures side { IfOk result (λ s. IsNewSide P.state geometry queue s) }
    ensures err { IfErr result (λ e. e.0 ≡ port) }
{
    match PmrQueue::open(alloc, port, geometry, queue) {
        Ok(pmr) => match QueueSide::open(alloc, pmr) {
            Ok(side) => Ok(side),
            Err((pmr, full)) => Err((pmr.into_port(), full)),
        },
        Err((port, full)) => Err((port, full)),
    }
}

/// Puts the ports of sides back, the last side's first. It takes no memory.
pub fn unmake_sides<P: Port, E: Drop>(sides: Vec<QueueSide<P, E>>, ports: &mut Vec<P>)
    requires room { vec_len ports.old + vec_len sides ≤ vec_capacity ports.old }
    ensures { ports.new.items ≡ ports.old.items ++ map (λ s. s.pmr.port) (reverse sides.items) }
{
    let mut sides = sides;
    while let Some(side) = sides.pop() {
        ports.push_reserved(side.into_pmr().into_port());
    }
    sides.destroy_empty();
}

/// The sides of all queues over their ports, and the room that the ports had. On out of memory the
/// ports are given back.
pub fn open_sides<P: Port, E: Drop>(
    alloc: Global,
    geometry: Geometry,
    queues: Vec<P>,
) -> Result<(Vec<QueueSide<P, E>>, Vec<P>), (Vec<P>, OutOfMemory)>
    requires idle { (q : ℕ) (p : P) → slice_get queues.items q ≡ Some p → IsIdle geometry q (P.state p) }
    requires few { vec_len queues ≤ 16 }
    ensures ports { IfOk result (λ r. map (λ s. s.pmr.port) r.0.items ≡ queues.items) }
    ensures sides { IfOk result (λ r. (q : ℕ) (s : _)
        → slice_get r.0.items q ≡ Some s
        → IsNewSide P.state geometry q s) }
    ensures room { IfOk result (λ r. (r.1.items ≡ []) × (vec_len r.0 ≤ vec_capacity r.1)) }
    ensures err { IfErr result (λ e. e.0.items ≡ queues.items) }
{
    let mut queues = queues;
    let Ok(mut sides) = Vec::with_capacity(alloc, queues.len()) else {
        return Err((queues, OutOfMemory));
    };
    while let Some(port) = queues.pop() {
        let queue = QueueNo(queues.len() as u32);
        match open_side(alloc, geometry, queue, port) {
            Ok(side) => sides.push_reserved(side),
            Err((port, full)) => {
                queues.push_reserved(port);
                unmake_sides(sides, &mut queues);
                return Err((queues, full));
            }
        }
    }
    sides.reverse();
    Ok((sides, queues))
}
