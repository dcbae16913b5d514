// `replicate`: a block text, fed to a replica, whose image is saved and whose live blocks are printed.
ghost use Rattle.std.specs.Prelude.{◌≡◌, ◌⊎◌, ℕ, List, option_map};
ghost use Rattle.mq_command_blocks.specs.Parts.{EndsUnsaved, SavesFile};
ghost use Rattle.mq_command_blocks.specs.SaysOfBlocks.{TextDecides};
ghost use Rattle.mq_command_io.specs.Ending.{EndsWith, IsUnlessFailed};
ghost use Rattle.mq_command_replicate.specs.Replicates.{Replicates};

use crate::replica::{ReplicaRun, run_bytes};
use mq_command_blocks::{save_file, say_refusal};
use mq_command_io::{DONE, load_or_say, say};
use mq_outside::{Files, Sink};
use std::alloc::Global;

// Saves the replica's image, where that is asked, and then says what is printed.
fn finish<F: Files, K: Sink>(run: ReplicaRun, save: Option<&str>, files: &mut F, out: &mut K) -> u8
    ensures { (SavesFile run.file (option_map (λ s. s.now) save.entry) (F.state files.old) (F.state files.new)
        × EndsWith 0 run.output.items result (K.state out.old) (K.state out.new))
        ⊎ EndsUnsaved (option_map (λ s. s.now) save.entry) (F.state files.old) (F.state files.new) result
        (K.state out.old) (K.state out.new) }
{
    let ReplicaRun { output, file } = run;
    match save_file(file, save, files, out) {
        Ok(()) => say(DONE, &output, out),
        Err(status) => status,
    }
}

/// `replicate FILE [--seed S] [--save NAME]`: feeds the lines of a block text to a replica on a fresh drive,
/// over a link that loses and repeats what is sent as the seed says, saves the replica's image, if a name is
/// given for it, and prints what the replica has reached and its live blocks. Nothing is printed before the
/// image is saved.
pub fn run_replicate<F: Files, K: Sink>(
    alloc: Global,
    file: &str,
    seed: u64,
    save: Option<&str>,
    files: &mut F,
    out: &mut K,
) -> u8
    ensures ends { (status : ℕ)
        × (text : List ℕ)
        × Replicates file.now (option_map (λ s. s.now) save.entry) (F.state files.old) (F.state files.new) status text
        × EndsWith status text result (K.state out.old) (K.state out.new) }
    ensures decided { (status : ℕ)
        → TextDecides file.now (F.state files.old).contents status
        → IsUnlessFailed status result }
{
    let bytes = match load_or_say(alloc, file, files, out) {
        Ok(bytes) => bytes,
        Err(status) => return status,
    };
    match run_bytes(alloc, &bytes, seed, save.is_some()) {
        Ok(run) => finish(run, save, files, out),
        Err(refusal) => say_refusal(alloc, refusal, out),
    }
}
