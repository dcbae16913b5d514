// `gen`: a generated workload on an empty file system.
ghost use Rattle.std.specs.Prelude.{◌≡◌, ◌≤◌, ℕ, List, IfErr, IfOk, Some, option_map};
ghost use Rattle.std.specs.String.{string_bytes};
ghost use Rattle.mq_command_run.specs.Generates.{Generates, SavesUnder, generated_head, generated_line};
ghost use Rattle.mq_command_io.specs.Ending.{EndsWith, IsNotSaved, IsUnlessFailed};

use crate::generated::Generated;
use crate::generating::generate;
use mq_calls::Gate;
use mq_command_io::{DONE, save_or_say, say, say_memory};
use mq_outside::{Files, Sink};
use mq_tree::TreeCounts;
use std::alloc::{AllocError, Global};
use std::sync::Wait;
use std::thread::Threads;

/// The parameters of a generated workload.
#[derive(Clone, Copy, PartialEq, Eq)]
pub struct Workload {
    /// The seed of the generators of its threads.
    pub seed: u64,
    pub threads: u32,
    /// The number of groups of each thread, not counting its first.
    pub groups: u32,
}

// How many threads and groups a workload has, and how many numbers were drawn.
fn head_of(alloc: Global, workload: Workload, commits: u64) -> Result<String, AllocError>
    ensures { IfOk result (λ s. string_bytes s ≡ generated_head workload commits) }
{
    let Workload {
        threads,
        groups,
        ..
    } = workload;
    format!(in alloc; "threads {threads} groups {groups} commits {commits}")
}

// What is said of a run of a workload.
fn line_of(alloc: Global, workload: Workload, made: &Generated) -> Result<String, AllocError>
    ensures { IfOk result (λ s. string_bytes s ≡ generated_line workload made.now) }
{
    let head = head_of(alloc, workload, made.commits)?;
    let TreeCounts {
        directories,
        files,
        bytes,
    } = made.counts;
    format!(in alloc; "{head} dirs {directories} files {files} bytes {bytes}\n")
}

// Saves a file under a name, where one is given; where it is not saved, why is said, and the status
// answered.
fn save_under<F: Files, K: Sink>(
    save: Option<&str>,
    file: &[u8],
    files: &mut F,
    out: &mut K,
) -> Result<(), u8>
    ensures ok { IfOk result (λ _. SavesUnder (option_map (λ n. n.now) save.entry) file.now
        (F.state files.old) (F.state files.new)) }
    ensures silent { IfOk result (λ _. K.state out.new ≡ K.state out.old) }
    ensures refused { IfErr result (λ s. (status : ℕ)
        × (text : List ℕ)
        × (name : List ℕ)
        × (option_map (λ n. n.now) save.entry ≡ Some name)
        × IsNotSaved name (F.state files.old) (F.state files.new) status text
        × EndsWith status text s (K.state out.old) (K.state out.new)) }
{
    match save {
        Some(name) => save_or_say(name, file, files, out),
        None => Ok(()),
    }
}

/// `gen SEED THREADS GROUPS [--save NAME]`: runs the workload on the empty file system of a fresh drive in
/// memory, each of its scripts on a session and a thread of its own, saves what a cut of the power at the
/// end of the sessions leaves, if a name is given for it, and prints how many files, directories and bytes
/// the tree then has. Nothing is printed before the image is saved.
pub fn generate_and_save<F: Files, K: Sink, R: Threads + Wait + Sync, G: Gate + Sync>(
    rt: &R,
    alloc: Global,
    workload: Workload,
    save: Option<&str>,
    files: &mut F,
    out: &mut K,
    gate: &G,
) -> u8
    requires threads { (1 ≤ workload.threads) × (workload.threads ≤ 16) }
    ensures ends { (status : ℕ)
        × (text : List ℕ)
        × Generates workload (option_map (λ s. s.now) save.entry) (F.state files.old) (F.state files.new)
        status text
        × EndsWith status text result (K.state out.old) (K.state out.new) }
    ensures done { IsUnlessFailed 0 result }
{
    let Workload {
        seed,
        threads,
        groups,
    } = workload;
    let keeps = save.is_some();
    let made = match generate(rt, alloc, seed, threads, groups, keeps, gate) {
        Ok(made) => made,
        Err(_) => return say_memory(out),
    };
    let line = match line_of(alloc, workload, &made) {
        Ok(line) => line,
        Err(_) => return say_memory(out),
    };
    match save_under(save, &made.file, files, out) {
        Ok(()) => say(DONE, line.as_bytes(), out),
        Err(status) => status,
    }
}
