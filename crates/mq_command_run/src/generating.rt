// The generated workload on an empty file system.
ghost use Rattle.std.specs.Prelude.{◌≡◌, ◌≤◌, true, IfOk};
ghost use Rattle.mq_command_run.specs.Generated.{IsGenerated};
ghost use Rattle.mq_image.specs.Drives.{IsDrive};
ghost use Rattle.mq_image.specs.File.{image_bytes};
ghost use Rattle.mq_image_ops.specs.Standing.{StandsFor};
ghost use Rattle.mq_run_laws.specs.Legal.{newest as newest_of};
ghost use Rattle.mq_tree.specs.Counts.{counts_in};
ghost use Rattle.mq_tree.specs.Volume.{Volume};

use crate::generated::Generated;
use crate::playing::{play, settle_all};
use crate::shape::shape;
use crate::workload_laws::a_workload_is_refused_only_for_memory;
use mq_blocks::OutOfMemory;
use mq_calls::Gate;
use mq_image::{DriveImage, write_image};
use mq_image_ops::read_volume;
use mq_report::Line;
use mq_run_laws::a_run_on_an_image_keeps_its_promise;
use mq_script::workload;
use mq_tree::{TreeCounts, alike_trees};
use std::alloc::Global;
use std::sync::Wait;
use std::thread::Threads;

// The last number of the lines, or 0.
fn newest(lines: &[Line]) -> u64
    ensures { result ≡ newest_of 0 lines.now }
{
    let mut number = 0;
    for line in lines {
        number = line.number.0;
    }
    number
}

// The counts of the tree that stands on an image. Where one stands, the call is refused only as out of
// memory.
fn count(alloc: Global, image: DriveImage) -> Result<TreeCounts, OutOfMemory>
    requires { IsDrive image }
    ensures { IfOk result (λ counts. (v : Volume) × StandsFor image v × (counts ≡ counts_in v)) }
{
    alike_trees();
    match read_volume(alloc, image) {
        Ok(tree) => Ok(tree.counts()),
        Err(_) => Err(OutOfMemory),
    }
}

// The file of an image, where it is to be kept.
fn file_of(alloc: Global, image: &DriveImage, keeps: bool) -> Result<Vec<u8>, OutOfMemory>
    requires { IsDrive image.now }
    ensures { IfOk result (λ file. keeps ≡ true → file.items ≡ image_bytes image.now) }
{
    if keeps {
        write_image(alloc, image)
    } else {
        Ok(Vec::new(alloc))
    }
}

/// Runs the workload of a seed on the empty file system of a fresh drive, each script on a session and a
/// thread of its own, cuts the power of the drive once all sessions have ended, and counts what stands
/// then. The file of the image that this left is made only if `keeps` is set.
pub fn generate<R: Threads + Wait + Sync, G: Gate + Sync>(
    rt: &R,
    alloc: Global,
    seed: u64,
    threads: u32,
    groups: u32,
    keeps: bool,
    gate: &G,
) -> Result<Generated, OutOfMemory>
    requires { (1 ≤ threads) × (threads ≤ 16) }
    ensures { IfOk result (IsGenerated seed threads groups keeps) }
{
    let geometry = shape(threads);
    a_run_on_an_image_keeps_its_promise();
    a_workload_is_refused_only_for_memory();
    let scripts = workload(alloc, seed, threads, groups)?;
    let ran = play(rt, alloc, geometry, &scripts, gate)?;
    settle_all(&ran.answers)?;
    let commits = newest(&ran.entries);
    let file = file_of(alloc, &ran.image, keeps)?;
    let counts = count(alloc, ran.image)?;
    Ok(Generated {
        file,
        commits,
        counts,
    })
}
