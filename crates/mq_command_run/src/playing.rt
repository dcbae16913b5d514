// A run of scripts on an empty file system, to the end of all sessions.
ghost use Rattle.std.specs.Prelude.{◌≡◌, ◌≤◌, true, IfErr, IfOk, length};
ghost use Rattle.mq_blocks.specs.Geometry.{queues_of};
ghost use Rattle.mq_command_run.specs.Generated.{AreForMemory, AreGood, IsForMemory, IsPlayed, IsWanting};
ghost use Rattle.mq_run_laws.specs.Answers.{is_good};
ghost use Rattle.mq_run_laws.specs.Complete.{HaveWanted};

use mq_blocks::{Geometry, OutOfMemory};
use mq_calls::{CallCause, Gate, Refusal};
use mq_image_ops::format_drive;
use mq_report::Told;
use mq_run_laws::{Ending, ImageRun, RunOptions, run_image};
use mq_script::Script;
use std::alloc::Global;
use std::sync::Wait;
use std::thread::Threads;

/// Nothing follows the sessions, and no command fails.
const SESSIONS_ALONE: RunOptions = RunOptions {
    ending: Ending::Sessions,
    pick: 0,
    fail: None,
};

/// Runs scripts on the empty file system of a fresh drive, each on a session and a thread of its own, with
/// power until all sessions have ended and no failing command.
pub fn play<R: Threads + Wait + Sync, G: Gate + Sync>(
    rt: &R,
    alloc: Global,
    geometry: Geometry,
    scripts: &[Script],
    gate: &G,
) -> Result<ImageRun, OutOfMemory>
    requires scripts { (1 ≤ length scripts.now) × (length scripts.now ≤ queues_of geometry) }
    ensures { IfOk result (IsPlayed geometry scripts.now) }
{
    let image = format_drive(alloc, geometry)?;
    match run_image(rt, alloc, image, scripts, SESSIONS_ALONE, gate) {
        Ok(ran) => Ok(ran),
        Err(_) => Err(OutOfMemory),
    }
}

// Whether a group was answered well, or memory ran out for it.
fn settle(told: &Told) -> Result<(), OutOfMemory>
    requires { IsForMemory told.now.answer }
    ensures good { IfOk result (λ _. is_good told.now.answer ≡ true) }
    ensures wanting { IfErr result (λ _. IsWanting told.now.answer) }
{
    match told.answer {
        Ok(_) => Ok(()),
        Err(Refusal { cause, .. }) => match cause {
            CallCause::OutOfMemory => Err(OutOfMemory),
            CallCause::TooLarge { .. } | CallCause::Changes { .. } | CallCause::Drive(_) => {
                unreachable!()
            }
        },
    }
}

/// Whether each group was answered well, or memory ran out for one. No group is refused for another cause.
pub fn settle_all(answers: &[Told]) -> Result<(), OutOfMemory>
    requires { AreForMemory answers.now }
    ensures good { IfOk result (λ _. AreGood answers.now) }
    ensures wanting { IfErr result (λ _. HaveWanted answers.now) }
{
    for told in answers {
        match settle(told) {
            Ok(()) => {}
            Err(full) => return Err(full),
        }
    }
    Ok(())
}
