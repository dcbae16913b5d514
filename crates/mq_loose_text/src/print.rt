// What a run of a text of the loose order prints.
ghost use Rattle.std.specs.Prelude.{◌≡◌, ◌∷◌, IfOk, string_bytes};
ghost use Rattle.mq_block_text.specs.Text.{number_text};
ghost use Rattle.mq_loose_text.specs.Text.{numbers_text, printed, refused_line};

use mq_block_text::block_line;
use mq_blocks::{BlockNo, OutOfMemory, TxNo};
use std::alloc::{AllocError, Global};

// A space and a number.
fn print_number(alloc: Global, number: TxNo) -> Result<String, AllocError>
    ensures { IfOk result (λ s. string_bytes s ≡ 32 ∷ number_text number) }
{
    let number = number.0;
    format!(in alloc; " {number}")
}

// Each number after a space.
fn print_numbers(alloc: Global, numbers: &[TxNo]) -> Result<Vec<u8>, OutOfMemory>
    ensures { IfOk result (λ v. v.items ≡ numbers_text numbers.now) }
{
    let mut text = Vec::new(alloc);
    for number in numbers {
        text.extend_from_slice(print_number(alloc, *number)?.as_bytes())?;
    }
    Ok(text)
}

/// The line that says which line of a text is refused.
pub fn print_refused(alloc: Global, line: u64) -> Result<String, AllocError>
    ensures { IfOk result (λ s. string_bytes s ≡ refused_line line) }
{
    format!(in alloc; "loose line {line}\n")
}

/// The numbers that are settled, those of the image's set, and then each live block with the byte that all of it has.
pub fn print_loose(
    alloc: Global,
    acknowledged: &[TxNo],
    set: &[TxNo],
    live: &[(BlockNo, u8)],
) -> Result<Vec<u8>, OutOfMemory>
    ensures { IfOk result (λ v. v.items ≡ printed acknowledged.now set.now live.now) }
{
    let mut out = Vec::new(alloc);
    out.extend_from_slice(b"acknowledged")?;
    out.extend_from_slice(&print_numbers(alloc, acknowledged)?)?;
    out.extend_from_slice(b"\nset")?;
    out.extend_from_slice(&print_numbers(alloc, set)?)?;
    out.push(b'\n')?;
    for (block, byte) in live {
        out.extend_from_slice(block_line(alloc, block.0, *byte)?.as_bytes())?;
    }
    Ok(out)
}
