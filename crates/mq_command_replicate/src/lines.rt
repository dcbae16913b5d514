// What is printed of a replica.
ghost use Rattle.std.specs.Prelude.{◌≡◌, ◌++◌, ◌∷◌, [], IfOk, codes, string_bytes};
ghost use Rattle.mq_block_text.specs.Text.{number_text};
ghost use Rattle.mq_command_replicate.specs.Replicas.{replica_text};

use mq_block_text::block_line;
use mq_blocks::{BlockNo, OutOfMemory, TxNo};
use std::alloc::{AllocError, Global};

fn reached_line(alloc: Global, reached: u64) -> Result<String, AllocError>
    ensures { IfOk result (λ s. string_bytes s ≡ codes "reached " ++ number_text reached ++ 10 ∷ []) }
{
    format!(in alloc; "reached {reached}\n")
}

/// The number that the replica has reached, and then each live block with the byte that all of it has.
pub fn print_replica(
    alloc: Global,
    reached: TxNo,
    live: &[(BlockNo, u8)],
) -> Result<Vec<u8>, OutOfMemory>
    ensures { IfOk result (λ v. v.items ≡ replica_text reached live.now) }
{
    let mut out = Vec::new(alloc);
    out.extend_from_slice(reached_line(alloc, reached.0)?.as_bytes())?;
    for (block, byte) in live {
        out.extend_from_slice(block_line(alloc, block.0, *byte)?.as_bytes())?;
    }
    Ok(out)
}
