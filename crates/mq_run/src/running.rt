// Scripts run over the ports of a drive that was recovered.
ghost use Rattle.std.specs.Prelude.{◌≡◌, ◌≤◌, ◌^◌, IfOk, IfErr, IfSome, length};
ghost use Rattle.std.specs.List.{All};
ghost use Rattle.mq_blocks.specs.Geometry.{queues_of};
ghost use Rattle.mq_calls.specs.Opening.{MayOpen};
ghost use Rattle.mq_recover.specs.Drives.{drive_of};
ghost use Rattle.mq_run.specs.Playing.{IsShort};
ghost use Rattle.mq_run.specs.Runs.{HasRunScripts};

use crate::end::RunEnd;
use crate::ending::end_scripts;
use crate::opening::open_pairs;
use crate::together::play_all;
use mq_blocks::{Geometry, OutOfMemory};
use mq_calls::Gate;
use mq_drive::{Port, Ports};
use mq_recover::Standing;
use mq_script::Script;
use std::alloc::Global;
use std::sync::Wait;
use std::thread::Threads;

/// Runs scripts over the ports of a drive that was recovered, and ends the run; with `finish` by a
/// checkpoint. Each script runs on a session of its own and a thread of its own. A helper on a further
/// thread drains the session's queue beside it. On out of memory the ports are given back as
/// they were if nothing was run yet; else they are dropped with the desk.
pub fn run_scripts<P: Port + Drop + Send, R: Threads + Wait + Sync, G: Gate + Sync>(
    rt: &R,
    alloc: Global,
    geometry: Geometry,
    ports: Ports<P>,
    standing: Standing,
    scripts: &[Script],
    finish: bool,
    gate: &G,
) -> Result<RunEnd<P>, (Option<Ports<P>>, OutOfMemory)>
    requires drive { MayOpen geometry (drive_of P.state ports) standing }
    requires base { standing.base ≤ 2 ^ 62 }
    requires scripts { (1 ≤ length scripts.now) × (length scripts.now ≤ queues_of geometry) }
    requires short { All (λ s. IsShort s.groups) scripts.now }
    ensures run { IfOk result (λ e. HasRunScripts P.Port P.state P.faults geometry ports standing scripts.now finish e) }
    ensures err { IfErr result (λ e. IfSome e.0 (λ p. (p.queues.items ≡ ports.queues.items)
        × (p.root ≡ ports.root))) }
{
    match open_pairs(alloc, geometry, ports, standing, scripts) {
        Ok((files, mut pairs)) => {
            play_all(rt, alloc, &files, &mut pairs, scripts, gate);
            match end_scripts(rt, alloc, files, pairs, finish) {
                Ok(end) => Ok(end),
                Err(full) => Err((None, full)),
            }
        }
        Err((ports, full)) => Err((Some(ports), full)),
    }
}
