// What a run of block texts prints.
ghost use Rattle.std.specs.Prelude.{◌≡◌, ◌++◌, ◌∷◌, [], IfOk, codes, string_bytes};
ghost use Rattle.mq_block_text.specs.Text.{number_text, hex_text, printed};

use mq_blocks::{BlockNo, OutOfMemory};
use std::alloc::{AllocError, Global};

fn prefix_line(alloc: Global, prefix: u64) -> Result<String, AllocError>
    ensures { IfOk result (λ s. string_bytes s ≡ codes "prefix " ++ number_text prefix ++ 10 ∷ []) }
{
    format!(in alloc; "prefix {prefix}\n")
}

/// The line of a block, and the byte that all of it has.
pub fn block_line(alloc: Global, block: u32, byte: u8) -> Result<String, AllocError>
    ensures { IfOk result (λ s. string_bytes s ≡ number_text block ++ 32 ∷ hex_text byte ++ 10 ∷ []) }
{
    format!(in alloc; "{block} {byte:02x}\n")
}

/// The number of lines that count, and then each block with the byte that all of it has.
pub fn print_blocks(
    alloc: Global,
    prefix: u64,
    live: &[(BlockNo, u8)],
) -> Result<Vec<u8>, OutOfMemory>
    ensures { IfOk result (λ v. v.items ≡ printed prefix live.now) }
{
    let mut out = Vec::new(alloc);
    out.extend_from_slice(prefix_line(alloc, prefix)?.as_bytes())?;
    for (block, byte) in live {
        out.extend_from_slice(block_line(alloc, block.0, *byte)?.as_bytes())?;
    }
    Ok(out)
}
