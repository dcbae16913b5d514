// The items of a commit's line: what it writes, what it frees, and the blocks of the map then.
ghost use Rattle.std.specs.Prelude.{◌≡◌, IfOk, None, length, slice_index_or};
ghost use Rattle.mq_block_text.specs.Text.{AreGoodItems};
ghost use Rattle.mq_block_trace.specs.Lines.{named, writes_from};
ghost use Rattle.mq_block_trace.specs.Marks.{dropped_from};
ghost use Rattle.mq_loose_run.specs.Items.{AreItems};

use mq_block_text::BlockLine;
use mq_block_trace::{NAMED, fills_of, mark_line};
use mq_blocks::{Block, BlockNo, OutOfMemory};
use mq_command_blocks::filled_writes;
use std::alloc::Global;

/// What a commit's line does with the blocks.
#[derive(Drop)]
pub struct Items {
    pub writes: Vec<(BlockNo, Block)>,
    pub frees: Vec<BlockNo>,
    /// Of each block that texts may name, whether it is in the map after the line.
    pub marks: Vec<bool>,
}

// The blocks that are in the map by the first marks and aren't by the second.
fn dropped_blocks(
    alloc: Global,
    before: &[bool],
    after: &[bool],
) -> Result<Vec<BlockNo>, OutOfMemory>
    requires before { length before.now ≡ 256 }
    requires after { length after.now ≡ 256 }
    ensures { IfOk result (λ v. v.items ≡ dropped_from before.now after.now 0 named) }
{
    let mut blocks = Vec::new(alloc);
    for b in 0..NAMED {
        if before[b] && !after[b] {
            blocks.push(BlockNo(b as u32))?;
        }
    }
    Ok(blocks)
}

/// The items of a line, where these are the marks of the blocks before it.
pub fn items_of(alloc: Global, line: &BlockLine, marks: &[bool]) -> Result<Items, OutOfMemory>
    requires good { AreGoodItems line.now }
    requires whole { length marks.now ≡ 256 }
    ensures { IfOk result (AreItems line.now marks.now) }
{
    let fills = fills_of(alloc, line)?;
    let writes = filled_writes(alloc, &fills)?;
    let mut after = Vec::from_slice(alloc, marks)?;
    mark_line(line, &mut after);
    let frees = dropped_blocks(alloc, marks, &after)?;
    Ok(Items {
        writes,
        frees,
        marks: after,
    })
}
