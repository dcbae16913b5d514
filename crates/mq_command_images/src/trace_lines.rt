// The texts of findings and of refused lines.
ghost use Rattle.std.specs.Prelude.{◌≡◌, ◌∷◌, IfOk, decimal};
ghost use Rattle.std.specs.String.{string_bytes};
ghost use Rattle.mq_command_images.specs.Audits.{counts_line, finding_text, misread_line, reach_line, refused_line, waiting_line};

use mq_audit::Finding;
use mq_blocks::{OutOfMemory, TxNo};
use std::alloc::{AllocError, Global};

fn print_counts(alloc: Global, events: u64, drawn: u64, done: u64) -> Result<String, AllocError>
    ensures { IfOk result (λ s. string_bytes s ≡ counts_line events drawn done) }
{
    format!(in alloc; "accepted events {events} drawn {drawn} done {done}\n")
}

// A space and a number.
fn print_number(alloc: Global, number: TxNo) -> Result<String, AllocError>
    ensures { IfOk result (λ s. string_bytes s ≡ 32 ∷ decimal number) }
{
    let number = number.0;
    format!(in alloc; " {number}")
}

fn print_waiting(alloc: Global, numbers: &[TxNo]) -> Result<Vec<u8>, OutOfMemory>
    ensures { IfOk result (λ v. v.items ≡ waiting_line numbers.now) }
{
    let mut line = Vec::new(alloc);
    line.extend_from_slice(b"unacknowledged")?;
    for number in numbers {
        line.extend_from_slice(print_number(alloc, *number)?.as_bytes())?;
    }
    line.push(b'\n')?;
    Ok(line)
}

fn print_reach(alloc: Global, least: TxNo, greatest: TxNo) -> Result<String, AllocError>
    ensures { IfOk result (λ s. string_bytes s ≡ reach_line least greatest) }
{
    let (least, greatest) = (least.0, greatest.0);
    format!(in alloc; "reach {least} {greatest}\n")
}

fn print_refused(alloc: Global, line: u64) -> Result<String, AllocError>
    ensures { IfOk result (λ s. string_bytes s ≡ refused_line line) }
{
    format!(in alloc; "refused line {line}\n")
}

/// The lines of a finding.
pub fn print_finding(alloc: Global, finding: Finding) -> Result<Vec<u8>, OutOfMemory>
    ensures { IfOk result (λ v. v.items ≡ finding_text finding) }
{
    match finding {
        Finding::Accepted {
            events,
            drawn,
            done,
            unacknowledged,
            least,
            greatest,
        } => {
            let mut text = print_counts(alloc, events, drawn, done)?.into_bytes();
            text.extend_from_slice(&print_waiting(alloc, &unacknowledged)?)?;
            text.extend_from_slice(print_reach(alloc, least, greatest)?.as_bytes())?;
            Ok(text)
        }
        Finding::Refused { line } => Ok(print_refused(alloc, line)?.into_bytes()),
    }
}

/// The line that names the first line of a text that is not in its form.
pub fn print_misread(alloc: Global, line: u64) -> Result<String, AllocError>
    ensures { IfOk result (λ s. string_bytes s ≡ misread_line line) }
{
    format!(in alloc; "trace line {line}\n")
}
