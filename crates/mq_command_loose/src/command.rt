// `loose`: a text of the loose order, whose run's image is saved, and of which is printed what was acknowledged and what
// stands.
ghost use Rattle.std.specs.Prelude.{◌≡◌, ◌⊎◌, ◌<◌, ◌^◌, ℕ, List, IfSome, option_map};
ghost use Rattle.mq_command_blocks.specs.Parts.{EndsUnsaved, SavesFile};
ghost use Rattle.mq_command_io.specs.Ending.{EndsWith, IsUnlessFailed, memory_line};
ghost use Rattle.mq_command_loose.specs.SaysOfLoose.{EndsRefused, LooseDecides, SaysOfLoose};
ghost use Rattle.mq_loose_text.specs.Text.{refused_line};

use crate::running::{LooseOutput, run_bytes};
use mq_command_blocks::save_file;
use mq_command_io::{DONE, REFUSED, load_or_say, say, say_memory};
use mq_loose_text::{LooseTextRefusal, print_refused};
use mq_outside::{Files, Sink};
use std::alloc::Global;

// Prints which line of a text is refused, or that memory ran out for that.
fn say_refused<K: Sink>(alloc: Global, line: u64, out: &mut K) -> u8
    ensures { EndsWith 2 (refused_line line) result (K.state out.old) (K.state out.new)
        ⊎ EndsWith 6 memory_line result (K.state out.old) (K.state out.new) }
{
    match print_refused(alloc, line) {
        Ok(text) => say(REFUSED, text.as_bytes(), out),
        Err(_) => say_memory(out),
    }
}

// Prints why a text is not run.
fn say_refusal<K: Sink>(alloc: Global, refusal: LooseTextRefusal, out: &mut K) -> u8
    ensures { EndsRefused refusal result (K.state out.old) (K.state out.new) }
{
    match refusal {
        LooseTextRefusal::Line { line } => say_refused(alloc, line, out),
        LooseTextRefusal::OutOfMemory => say_memory(out),
    }
}

// Saves what the cut left, where that is asked, and then says what is printed.
fn finish<F: Files, K: Sink>(run: LooseOutput, save: Option<&str>, files: &mut F, out: &mut K) -> u8
    ensures { (SavesFile run.file (option_map (λ s. s.now) save.entry) (F.state files.old) (F.state files.new)
        × EndsWith 0 run.text.items result (K.state out.old) (K.state out.new))
        ⊎ EndsUnsaved (option_map (λ s. s.now) save.entry) (F.state files.old) (F.state files.new) result
        (K.state out.old) (K.state out.new) }
{
    let LooseOutput { text, file } = run;
    match save_file(file, save, files, out) {
        Ok(()) => say(DONE, &text, out),
        Err(status) => status,
    }
}

/// `loose FILE [--cut K] [--pick S] [--save NAME]`: runs the lines of a text of the loose order on a fresh drive of four
/// queues until the end, or until the power goes off, saves the image that this leaves, if a name is given for it, and
/// prints the numbers that were acknowledged, those that stand, and the blocks that these leave. Nothing is printed
/// before the image is saved.
pub fn run_loose<F: Files, K: Sink>(
    alloc: Global,
    file: &str,
    cut: Option<u64>,
    pick: u64,
    save: Option<&str>,
    files: &mut F,
    out: &mut K,
) -> u8
    requires { IfSome cut (λ k. k < 2 ^ 63) }
    ensures ends { (status : ℕ)
        × (text : List ℕ)
        × SaysOfLoose file.now cut (option_map (λ s. s.now) save.entry) (F.state files.old) (F.state files.new) status text
        × EndsWith status text result (K.state out.old) (K.state out.new) }
    ensures decided { (status : ℕ)
        → LooseDecides file.now (F.state files.old).contents status
        → IsUnlessFailed status result }
{
    let bytes = match load_or_say(alloc, file, files, out) {
        Ok(bytes) => bytes,
        Err(status) => return status,
    };
    match run_bytes(alloc, &bytes, cut, pick, save.is_some()) {
        Ok(run) => finish(run, save, files, out),
        Err(refusal) => say_refusal(alloc, refusal, out),
    }
}
