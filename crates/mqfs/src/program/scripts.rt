// `run`: scripts of requests, run on an image.
ghost use Rattle.std.specs.Prelude.{◌≡◌, ◌⊎◌, ◌≤◌, ℕ, List, length, map};
ghost use Rattle.mq_command_run.specs.RunsScripts.{Runs};
ghost use Rattle.mq_command_io.specs.Ending.{EndsWith, IsUnlessFailed};
ghost use Rattle.mq_cli.specs.Asked.{AreSmallOfRun};
ghost use Rattle.mqfs.specs.Decided.{IsRunnable, RunDecides};
ghost use Rattle.mqfs.specs.Says.{failing, run_ending, run_options};

use mq_calls::Gate;
use mq_cli::{FailingCommand, RunFlags};
use mq_command_run::run;
use mq_image_ops::Failing;
use mq_outside::{Files, Sink};
use mq_run_laws::{Ending, RunOptions};
use std::alloc::Global;
use std::sync::Wait;
use std::thread::Threads;

// The command that is to fail.
fn failing_of(command: FailingCommand) -> Failing
    ensures { result ≡ failing command }
{
    Failing {
        port: command.port,
        command: command.command,
    }
}

// How a run ends: with a cut where one is asked for, and else with a checkpoint.
fn ending_of(cut: Option<u64>) -> Ending
    ensures { result ≡ run_ending cut }
{
    match cut {
        Some(events) => Ending::Cut(events),
        None => Ending::Checkpoint,
    }
}

// What the options ask of a run. Draws come from 0 where no pick is given.
fn options_of(options: RunFlags) -> RunOptions
    ensures { result ≡ run_options options }
{
    RunOptions {
        ending: ending_of(options.cut),
        pick: options.pick.unwrap_or(0),
        fail: match options.fail {
            Some(command) => Some(failing_of(command)),
            None => None,
        },
    }
}

/// Runs `run IMAGE SCRIPT..` with its options.
pub fn run_script_files<F: Files, K: Sink, R: Threads + Wait + Sync, G: Gate + Sync>(
    rt: &R,
    alloc: Global,
    image: &str,
    scripts: &[&str],
    options: RunFlags,
    files: &mut F,
    out: &mut K,
    gate: &G,
) -> u8
    requires small { AreSmallOfRun options }
    requires script { 1 ≤ length scripts.now }
    ensures ends { (status : ℕ)
        × (text : List ℕ)
        × Runs (run_options options) image.now (map (λ s. s.now) scripts.now) (F.state files.old)
        (F.state files.new) status text
        × EndsWith status text result (K.state out.old) (K.state out.new) }
    ensures decided { (status : ℕ)
        → RunDecides image.now (map (λ s. s.now) scripts.now) options (F.state files.old).contents status
        → IsUnlessFailed status result }
    ensures runs { IsRunnable image.now (map (λ s. s.now) scripts.now) (F.state files.old).contents
        → (result ≡ 5) ⊎ IsUnlessFailed 0 result }
{
    run(
        rt,
        alloc,
        image,
        scripts,
        options_of(options),
        files,
        out,
        gate,
    )
}
