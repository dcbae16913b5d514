// `gen`: a generated workload.
ghost use Rattle.std.specs.Prelude.{◌≡◌, ◌≤◌, ℕ, List, option_map};
ghost use Rattle.mq_command_run.specs.Generates.{Generates};
ghost use Rattle.mq_command_io.specs.Ending.{EndsWith, IsUnlessFailed};
ghost use Rattle.mqfs.specs.Says.{asked_workload};

use mq_calls::Gate;
use mq_command_run::{Workload, generate_and_save};
use mq_outside::{Files, Sink};
use std::alloc::Global;
use std::sync::Wait;
use std::thread::Threads;

/// Runs `gen SEED THREADS GROUPS` with its option.
pub fn run_workload<F: Files, K: Sink, R: Threads + Wait + Sync, G: Gate + Sync>(
    rt: &R,
    alloc: Global,
    seed: u64,
    threads: u32,
    groups: u32,
    save: Option<&str>,
    files: &mut F,
    out: &mut K,
    gate: &G,
) -> u8
    requires threads { (1 ≤ threads) × (threads ≤ 16) }
    ensures ends { (status : ℕ)
        × (text : List ℕ)
        × Generates (asked_workload seed threads groups) (option_map (λ s. s.now) save.entry)
        (F.state files.old) (F.state files.new) status text
        × EndsWith status text result (K.state out.old) (K.state out.new) }
    ensures decided { (status : ℕ) → status ≡ 0 → IsUnlessFailed status result }
{
    let workload = Workload {
        seed,
        threads,
        groups,
    };
    generate_and_save(rt, alloc, workload, save, files, out, gate)
}
