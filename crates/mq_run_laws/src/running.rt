// A run on an image.
ghost use Rattle.std.specs.Prelude.{◌≡◌, ◌≤◌, ◌^◌, IfErr, IfOk, IsErrOf, IsOkUnless, length};
ghost use Rattle.std.specs.List.{All};
ghost use Rattle.std.specs.Option.{ForSome};
ghost use Rattle.mq_blocks.specs.Geometry.{queues_of};
ghost use Rattle.mq_image.specs.Drives.{IsDrive};
ghost use Rattle.mq_image_ops.specs.Standing.{StandsFor};
ghost use Rattle.mq_image_run.specs.Drives.{AreKept, IsReady};
ghost use Rattle.mq_image_run.specs.Limits.{AreWithin};
ghost use Rattle.mq_image_run.specs.Runs.{IsPlayedOn};
ghost use Rattle.mq_run.specs.Playing.{IsShort};
ghost use Rattle.mq_run_laws.specs.Endings.{drive_options, finishes, limit_of};
ghost use Rattle.mq_run_laws.specs.Played.{IsNotPlayed, PlaysScripts};
ghost use Rattle.mq_run_laws.specs.Refusals.{RefusesRun, refusal_from};
ghost use Rattle.mq_run_laws.specs.Runs.{IsRunOf};
ghost use Rattle.mq_tree.specs.Volume.{Volume};

use crate::counting::are_countable;
use crate::ending::last_of;
use crate::options::RunOptions;
use crate::playing::{Played, play_scripts};
use crate::ran::ImageRun;
use mq_calls::Gate;
use mq_drive::EmuPort;
use mq_image::DriveImage;
use mq_image_ops::{StandingRefusal, a_recovered_image_holds_what_stood};
use mq_image_run::{PlayedImage, Unplayed, play_on_image};
use mq_run::a_stopped_run_is_backed;
use mq_script::Script;
use std::alloc::Global;
use std::sync::Wait;
use std::thread::Threads;

// Why no script is run on an image.
fn refusal_of(unplayed: Unplayed<StandingRefusal>) -> StandingRefusal
    ensures { result ≡ refusal_from unplayed }
{
    match unplayed {
        Unplayed::Image(fault) => StandingRefusal::from(fault),
        Unplayed::Refused(refusal) => refusal,
    }
}

// Plays scripts on an image.
fn play_or_refuse<R: Threads + Wait + Sync, G: Gate + Sync>(
    rt: &R,
    alloc: Global,
    image: DriveImage,
    scripts: &[Script],
    options: RunOptions,
    gate: &G,
) -> Result<PlayedImage<Played>, StandingRefusal>
    requires image { IsDrive image }
    requires cut { ForSome (limit_of options.ending) (λ k. k ≤ 2 ^ 63) }
    requires scripts { (1 ≤ length scripts.now) × (length scripts.now ≤ queues_of image.geometry) }
    requires short { All (λ s. IsShort s.groups) scripts.now }
    ensures ok { IfOk result (IsPlayedOn (PlaysScripts image.geometry scripts.now (finishes options.ending))
        image (drive_options options)) }
    ensures refused { IfErr result (RefusesRun image) }
{
    let geometry = image.geometry;
    let finish = options.ending.finishes();
    a_recovered_image_holds_what_stood();
    let played = play_on_image(
        alloc,
        image,
        options.drive(),
        |ports|
            requires ready { IsReady geometry ports }
            requires scripts { (1 ≤ length scripts.now) × (length scripts.now ≤ queues_of geometry) }
            requires short { All (λ s. IsShort s.groups) scripts.now }
            ensures ok { IfOk result (λ r. PlaysScripts geometry scripts.entry.now finish ports.entry r.0 r.1) }
            ensures kept { IfOk result (λ r. AreKept geometry ports.entry r.1) }
            ensures refused { IfErr result (IsNotPlayed geometry ports.entry) }
        { play_scripts(rt, alloc, geometry, ports, scripts, finish, gate) },
    );
    match played {
        Ok(left) => Ok(left),
        Err(unplayed) => Err(refusal_of(unplayed)),
    }
}

// As `run_image`, of scripts whose groups and requests can be counted.
fn run_countable<R: Threads + Wait + Sync, G: Gate + Sync>(
    rt: &R,
    alloc: Global,
    image: DriveImage,
    scripts: &[Script],
    options: RunOptions,
    gate: &G,
) -> Result<ImageRun, StandingRefusal>
    requires image { IsDrive image }
    requires cut { ForSome (limit_of options.ending) (λ k. k ≤ 2 ^ 63) }
    requires scripts { (1 ≤ length scripts.now) × (length scripts.now ≤ queues_of image.geometry) }
    requires short { All (λ s. IsShort s.groups) scripts.now }
    ensures ok { IfOk result (IsRunOf image scripts.now options) }
    ensures refused { IfErr result (RefusesRun image) }
{
    let left = play_or_refuse(rt, alloc, image, scripts, options, gate)?;
    a_stopped_run_is_backed::<EmuPort<'_>>();
    let played = left.played;
    let last = last_of(options.ending, left.events, played.finished)?;
    Ok(ImageRun {
        image: left.image,
        base: left.base,
        entries: played.entries,
        answers: played.answers,
        last,
        failed: left.failed,
    })
}

/// Recovers the drive that starts from an image, and runs scripts over the volume that stands there, each
/// on a session and a thread of its own. Power and failing command are those of the drive after the
/// recovery. Once the run has ended as it is asked to, the power of the drive is cut, and what that leaves
/// is the new image.
pub fn run_image<R: Threads + Wait + Sync, G: Gate + Sync>(
    rt: &R,
    alloc: Global,
    image: DriveImage,
    scripts: &[Script],
    options: RunOptions,
    gate: &G,
) -> Result<ImageRun, StandingRefusal>
    requires image { IsDrive image }
    requires cut { ForSome (limit_of options.ending) (λ k. k ≤ 2 ^ 63) }
    requires scripts { (1 ≤ length scripts.now) × (length scripts.now ≤ queues_of image.geometry) }
    ensures ok { IfOk result (IsRunOf image scripts.now options) }
    ensures refused { IfErr result (RefusesRun image) }
    ensures complete { (v : Volume) (stands : StandsFor image v)
        → AreWithin image stands.top
        → IsOkUnless result StandingRefusal.OutOfMemory }
    ensures long { (All (λ s. IsShort s.groups) scripts.now → ⊥)
        → IsErrOf result StandingRefusal.OutOfMemory }
{
    if !are_countable(scripts) {
        return Err(StandingRefusal::OutOfMemory);
    }
    run_countable(rt, alloc, image, scripts, options, gate)
}
