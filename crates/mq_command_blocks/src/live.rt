// The blocks that a text leaves, and what stands on them.
ghost use Rattle.std.specs.Prelude.{◌≡◌, ◌<◌, ◌≤◌, ◌+◌, ℕ, List, length, IfOk, slice_index_or};
ghost use Rattle.mq_blocks.specs.Blocks.{block_at};
ghost use Rattle.mq_blocks.specs.Machine.{Map};
ghost use Rattle.mq_block_trace.specs.Lines.{live_from, map_after, named};
ghost use Rattle.mq_block_trace.specs.Marks.{AreMarks};
ghost use Rattle.mq_command_blocks.specs.Live.{HoldsMap};
ghost use Rattle.mq_block_text.specs.Text.{IsGoodText};

use mq_block_text::BlockText;
use mq_block_trace::{NAMED, mark_line};
use mq_blocks::{Block, BlockNo, OutOfMemory};
use std::alloc::Global;

/// For each block that texts may name, whether it is live after the first `count` lines.
pub fn live_marks(alloc: Global, text: &BlockText, count: u64) -> Result<Vec<bool>, OutOfMemory>
    requires good { IsGoodText text.now }
    requires count { count ≤ length text.now }
    ensures { IfOk result (λ v. (length v.items ≡ 256) × AreMarks (map_after text.now count) v.items) }
{
    let mut marks = vec![in alloc; false; NAMED]?;
    for line in &text.0[..count as usize] {
        mark_line(line, &mut marks);
    }
    Ok(marks)
}

// The first byte of a home block, of which an absent one is zeros.
fn first_byte(homes: &[Option<Block>], b: usize) -> u8
    requires { b < length homes.now }
    ensures { result ≡ slice_index_or (block_at homes.now b) 0 0 }
{
    match &homes[b] {
        Some(block) => block.bytes()[0],
        None => 0,
    }
}

/// The live blocks in rising order of numbers, each with the first byte of its home block.
pub fn live_blocks(
    alloc: Global,
    homes: &[Option<Block>],
    marks: &[bool],
) -> Result<Vec<(BlockNo, u8)>, OutOfMemory>
    requires homes { 256 ≤ length homes.now }
    requires marks { length marks.now ≡ 256 }
    ensures { IfOk result (λ v. (m : Map)
        → AreMarks m marks.now
        → HoldsMap homes.now m
        → v.items ≡ live_from m 0 named) }
{
    let mut live = Vec::new(alloc);
    for b in 0..NAMED {
        match marks[b] {
            false => {}
            true => {
                let byte = first_byte(homes, b);
                live.push((BlockNo(b as u32), byte))?;
            }
        }
    }
    Ok(live)
}
