// `audit`: a trace is loaded, and what the journal's machine says of it is printed.
ghost use Rattle.std.specs.Prelude.{◌≡◌, ℕ, List, IfOk, Some};
ghost use Rattle.mq_audit.specs.Traces.{IsMisread, IsTrace, Trace};
ghost use Rattle.mq_command_images.specs.Audits.{Audits, misread_line};
ghost use Rattle.mq_command_io.specs.Ending.{EndsWith, IsUnlessFailed, SaysOf};
ghost use Rattle.mq_outside.specs.Outside.{Tells};

use crate::answer::{Answer, say_answer};
use crate::trace_lines::{print_finding, print_misread};
use mq_audit::TraceRefusal;
use mq_blocks::OutOfMemory;
use mq_command_io::{DONE, REFUSED, load_or_say};
use mq_outside::{Files, Sink};
use std::alloc::Global;

// The answer to a text that is no trace, by its first line that is not in its form.
fn refuse_line(alloc: Global, line: u64) -> Result<Answer, OutOfMemory>
    ensures { IfOk result (λ a. (a.status ≡ 2) × (a.text.items ≡ misread_line line)) }
{
    Ok(Answer {
        status: REFUSED,
        text: print_misread(alloc, line)?.into_bytes(),
    })
}

// The answer to the bytes of a file.
fn audit_bytes(alloc: Global, bytes: &[u8]) -> Result<Answer, OutOfMemory>
    ensures { IfOk result (λ a. Audits bytes.now a.status a.text.items) }
{
    match mq_audit::audit(alloc, bytes) {
        Ok(finding) => Ok(Answer {
            status: DONE,
            text: print_finding(alloc, finding)?,
        }),
        Err(TraceRefusal::Line { line }) => refuse_line(alloc, line),
        Err(TraceRefusal::OutOfMemory) => Err(OutOfMemory),
    }
}

/// `audit TRACE`: prints what the machine says of the trace that the name holds. Nothing is saved.
pub fn audit<F: Files, K: Sink>(alloc: Global, name: &str, files: &mut F, out: &mut K) -> u8
    ensures ends { (status : ℕ)
        × (text : List ℕ)
        × SaysOf Audits name.now (F.state files.old) (F.state files.new) status text
        × EndsWith status text result (K.state out.old) (K.state out.new) }
    ensures done_where { (bytes : List ℕ) (trace : Trace)
        → Tells (F.state files.old).contents name.now (Some bytes)
        → IsTrace bytes trace
        → IsUnlessFailed 0 result }
    ensures refused_where { (bytes : List ℕ) (line : ℕ)
        → Tells (F.state files.old).contents name.now (Some bytes)
        → IsMisread bytes line
        → IsUnlessFailed 2 result }
    ensures contents { (F.state files.new).contents ≡ (F.state files.old).contents }
{
    match load_or_say(alloc, name, files, out) {
        Ok(bytes) => say_answer(audit_bytes(alloc, &bytes), out),
        Err(status) => status,
    }
}
