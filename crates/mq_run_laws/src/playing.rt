// Scripts are played on the ports of a drive.
ghost use Rattle.std.specs.Prelude.{◌≡◌, ◌≤◌, IfErr, IfOk, length};
ghost use Rattle.std.specs.List.{All};
ghost use Rattle.mq_blocks.specs.Geometry.{queues_of};
ghost use Rattle.mq_image_run.specs.Drives.{AreKept, IsReady};
ghost use Rattle.mq_run.specs.Playing.{IsShort};
ghost use Rattle.mq_run_laws.specs.Played.{IsNotPlayed, PlaysScripts};

use mq_blocks::{Geometry, TxNo};
use mq_calls::{Gate, find_volume};
use mq_drive::{EmuPort, Ports};
use mq_image_ops::StandingRefusal;
use mq_journal::CheckpointRefusal;
use mq_report::{Line, Told};
use mq_run::{RunEnd, a_run_keeps_its_ports, run_scripts};
use mq_script::Script;
use std::alloc::Global;
use std::sync::Wait;
use std::thread::Threads;

/// The report of scripts that were played on a drive.
#[derive(Drop)]
pub struct Played {
    pub entries: Vec<Line>,
    pub answers: Vec<Told>,
    /// The result of the checkpoint at the end, if one was asked for.
    pub finished: Option<Result<TxNo, CheckpointRefusal>>,
}

/// Runs scripts over the ports of a drive and the volume that stands there, with `finish` to a checkpoint.
pub fn play_scripts<'f, R: Threads + Wait + Sync, G: Gate + Sync>(
    rt: &R,
    alloc: Global,
    geometry: Geometry,
    ports: Ports<EmuPort<'f>>,
    scripts: &[Script],
    finish: bool,
    gate: &G,
) -> Result<(Played, Ports<EmuPort<'f>>), StandingRefusal>
    requires ready { IsReady geometry ports }
    requires scripts { (1 ≤ length scripts.now) × (length scripts.now ≤ queues_of geometry) }
    requires short { All (λ s. IsShort s.groups) scripts.now }
    ensures ok { IfOk result (λ r. PlaysScripts geometry scripts.now finish ports.entry r.0 r.1) }
    ensures kept { IfOk result (λ r. AreKept geometry ports.entry r.1) }
    ensures refused { IfErr result (IsNotPlayed geometry ports.entry) }
{
    let standing = find_volume(alloc, geometry, &ports)?;
    let end = match run_scripts(rt, alloc, geometry, ports, standing, scripts, finish, gate) {
        Ok(end) => end,
        Err(_) => return Err(StandingRefusal::OutOfMemory),
    };
    a_run_keeps_its_ports::<EmuPort<'_>>();
    let RunEnd {
        ports,
        entries,
        answers,
        finished,
        ..
    } = end;
    let played = Played {
        entries,
        answers,
        finished,
    };
    Ok((played, ports))
}
