// Stored home blocks, of which an absent one is zeros.
ghost use Rattle.std.specs.Prelude.{◌≡◌};
ghost use Rattle.mq_blocks.specs.Blocks.{block_at, zeros};

use crate::corrupt::{CorruptCause, MountRefusal};
use mq_blocks::{Block, BlockNo};

/// The home block of this number, where `zero` stands for each absent one.
pub fn stored_block<'a>(blocks: &'a [Option<Block>], zero: &'a Block, b: u32) -> &'a Block
    requires { zero.now ≡ zeros }
    ensures { result.now ≡ block_at blocks.now b }
{
    match blocks.get(b as usize) {
        Some(Some(block)) => block,
        _ => zero,
    }
}

/// The refusal for a cause at a block.
pub fn corrupt(cause: CorruptCause, block: u32) -> MountRefusal
    ensures { result ≡ MountRefusal.Corrupt cause block }
{
    MountRefusal::Corrupt {
        cause,
        block: BlockNo(block),
    }
}
