// `blocks`: a block text, committed, cut from power, recovered and printed.
ghost use Rattle.std.specs.Prelude.{◌≡◌, ◌⊎◌, ℕ, List, IfErr, IfOk, option_map};
ghost use Rattle.std.specs.String.{string_bytes};
ghost use Rattle.mq_command_io.specs.Ending.{EndsWith, IsUnlessFailed, memory_line};
ghost use Rattle.mq_cli.specs.Asked.{AreSmall};
ghost use Rattle.mq_command_blocks.specs.Blocks.{refused_line};
ghost use Rattle.mq_command_blocks.specs.Parts.{EndsHalfway, EndsRefused, EndsRun, EndsUnsaved, SavesBoth, SavesFile};
ghost use Rattle.mq_command_blocks.specs.SaysOfBlocks.{SaysOfBlocks, TextDecides};

use crate::blocks::{TextRun, Wanted, run_bytes};
use mq_block_text::{BlockTextCause, BlockTextRefusal};
use mq_cli::BlocksOptions;
use mq_command_io::{DONE, REFUSED, load_or_say, save_or_say, say, say_memory};
use mq_outside::{Files, Sink};
use std::alloc::{AllocError, Global};

// The line of a text that is refused.
fn refusal_text(alloc: Global, line: u32, cause: BlockTextCause) -> Result<String, AllocError>
    ensures { IfOk result (λ s. string_bytes s ≡ refused_line line cause) }
{
    let name = cause.name();
    format!(in alloc; "blocks line {line}: {name}\n")
}

// Prints why a block text is refused, or that memory ran out for that.
fn say_refused<K: Sink>(alloc: Global, line: u32, cause: BlockTextCause, out: &mut K) -> u8
    ensures { EndsWith 2 (refused_line line cause) result (K.state out.old) (K.state out.new)
        ⊎ EndsWith 6 memory_line result (K.state out.old) (K.state out.new) }
{
    match refusal_text(alloc, line, cause) {
        Ok(text) => say(REFUSED, text.as_bytes(), out),
        Err(_) => say_memory(out),
    }
}

/// Prints why a block text is not run, or that memory ran out for that.
pub fn say_refusal<K: Sink>(alloc: Global, refusal: BlockTextRefusal, out: &mut K) -> u8
    ensures { EndsRefused refusal result (K.state out.old) (K.state out.new) }
{
    match refusal {
        BlockTextRefusal::At { line, cause } => say_refused(alloc, line, cause, out),
        BlockTextRefusal::OutOfMemory => say_memory(out),
    }
}

/// Saves a file under a name, where both are given. If that fails, prints why and returns the status.
pub fn save_file<F: Files, K: Sink>(
    file: Option<Vec<u8>>,
    name: Option<&str>,
    files: &mut F,
    out: &mut K,
) -> Result<(), u8>
    ensures ok { IfOk result (λ _. SavesFile file (option_map (λ n. n.now) name.entry)
        (F.state files.old) (F.state files.new)) }
    ensures silent { IfOk result (λ _. K.state out.new ≡ K.state out.old) }
    ensures refused { IfErr result (λ s. EndsUnsaved (option_map (λ n. n.now) name.entry)
        (F.state files.old) (F.state files.new) s (K.state out.old) (K.state out.new)) }
{
    let (Some(name), Some(file)) = (name, file) else {
        return Ok(());
    };
    save_or_say(name, &file, files, out)
}

// Saves what the cut left, and then the trace, each where that is asked.
fn save_both<F: Files, K: Sink>(
    left: Option<Vec<u8>>,
    traced: Option<Vec<u8>>,
    save: Option<&str>,
    trace: Option<&str>,
    files: &mut F,
    out: &mut K,
) -> Result<(), u8>
    ensures ok { IfOk result (λ _. SavesBoth left traced (option_map (λ n. n.now) save.entry)
        (option_map (λ n. n.now) trace.entry) (F.state files.old) (F.state files.new)) }
    ensures silent { IfOk result (λ _. K.state out.new ≡ K.state out.old) }
    ensures refused { IfErr result (λ s. EndsHalfway left (option_map (λ n. n.now) save.entry)
        (option_map (λ n. n.now) trace.entry) (F.state files.old) (F.state files.new) s
        (K.state out.old) (K.state out.new)) }
{
    save_file(left, save, files, out)?;
    save_file(traced, trace, files, out)
}

// Saves what the cut left and the trace, where that is asked, and then says what is printed.
fn finish<F: Files, K: Sink>(
    run: TextRun,
    save: Option<&str>,
    trace: Option<&str>,
    files: &mut F,
    out: &mut K,
) -> u8
    ensures { EndsRun run.left run.traced run.output.items (option_map (λ s. s.now) save.entry)
        (option_map (λ s. s.now) trace.entry) (F.state files.old) (F.state files.new) result
        (K.state out.old) (K.state out.new) }
{
    let TextRun {
        output,
        left,
        traced,
    } = run;
    match save_both(left, traced, save, trace, files, out) {
        Ok(()) => say(DONE, &output, out),
        Err(status) => status,
    }
}

/// Runs `blocks FILE` with its options. What the cut left and the trace are saved, in this order, before
/// anything is printed.
pub fn run_blocks<F: Files, K: Sink>(
    alloc: Global,
    file: &str,
    options: BlocksOptions,
    save: Option<&str>,
    trace: Option<&str>,
    files: &mut F,
    out: &mut K,
) -> u8
    requires small { AreSmall options }
    ensures ends { (status : ℕ)
        × (text : List ℕ)
        × SaysOfBlocks file.now options (option_map (λ s. s.now) save.entry)
        (option_map (λ s. s.now) trace.entry) (F.state files.old) (F.state files.new) status text
        × EndsWith status text result (K.state out.old) (K.state out.new) }
    ensures decided { (status : ℕ)
        → TextDecides file.now (F.state files.old).contents status
        → IsUnlessFailed status result }
{
    let bytes = match load_or_say(alloc, file, files, out) {
        Ok(bytes) => bytes,
        Err(status) => return status,
    };
    let wanted = Wanted {
        left: save.is_some(),
        traced: trace.is_some(),
    };
    match run_bytes(alloc, &bytes, options, wanted) {
        Ok(run) => finish(run, save, trace, files, out),
        Err(refusal) => say_refusal(alloc, refusal, out),
    }
}
