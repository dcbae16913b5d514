// A line of a block text as an update of a replica.
ghost use Rattle.std.specs.Prelude.{◌≡◌, IfOk};
ghost use Rattle.mq_block_text.specs.Text.{AreGoodItems};
ghost use Rattle.mq_command_replicate.specs.Updates.{update_of};

use mq_block_text::BlockLine;
use mq_block_trace::fills_of;
use mq_blocks::{OutOfMemory, TxNo};
use mq_command_blocks::filled_writes;
use mq_replica::{Update, UpdateWrites};
use std::alloc::Global;

/// The update of a line: it writes the blocks that the line sets. A block that the line frees keeps its
/// bytes, since only the text says which blocks are live.
pub fn update_of(alloc: Global, number: TxNo, line: &BlockLine) -> Result<Update, OutOfMemory>
    requires { AreGoodItems line.now }
    ensures { IfOk result (λ u. u ≡ update_of number line.now) }
{
    let fills = fills_of(alloc, line)?;
    Ok(Update {
        number,
        writes: UpdateWrites(filled_writes(alloc, &fills)?),
    })
}
