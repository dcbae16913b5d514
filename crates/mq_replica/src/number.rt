// The block that says how far a replica has come.
ghost use Rattle.std.specs.Prelude.{◌≡◌, IfOk};
ghost use Rattle.mq_replica.specs.Contents.{number_in, numbered_block};

use mq_blocks::bytes::{put, u64_at};
use mq_blocks::{Block, OutOfMemory, TxNo};
use std::alloc::Global;

/// A block that says a number: its first eight bytes, the least first, and zeros.
#[tactic(auto, unfolding(crate::specs::Contents::numbered_block))]
pub fn numbered_block(alloc: Global, number: TxNo) -> Result<Block, OutOfMemory>
    ensures { IfOk result (λ b. b ≡ numbered_block number) }
{
    let mut block = Block::zeroed(alloc)?;
    put(block.bytes_mut(), 0, &number.0.to_le_bytes());
    Ok(block)
}

/// The number that a block says.
pub fn number_in(block: &Block) -> TxNo
    ensures { result ≡ number_in block.now }
{
    TxNo(u64_at(block.bytes(), 0))
}
