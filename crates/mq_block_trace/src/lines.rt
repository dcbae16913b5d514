// What the lines of a text do with the blocks that texts may name.
ghost use Rattle.std.specs.Prelude.{◌≡◌, ◌<◌, ℕ, length, IfOk, slice_index_or, None};
ghost use Rattle.mq_block_text.specs.Text.{AreGoodItems};
ghost use Rattle.mq_block_trace.specs.Lines.{set_in};
ghost use Rattle.mq_block_trace.specs.Marks.{AreMarked};

use mq_block_text::{BlockItem, BlockLine};
use mq_blocks::OutOfMemory;
use std::alloc::Global;

/// Block texts name the blocks below this one.
pub const NAMED: usize = 256;

/// The byte with which a line fills each block that texts may name.
pub fn fills_of(alloc: Global, line: &BlockLine) -> Result<Vec<Option<u8>>, OutOfMemory>
    requires { AreGoodItems line.now }
    ensures { IfOk result (λ v. (length v.items ≡ 256)
        × ((b : ℕ) → b < 256 → slice_index_or v.items b None ≡ set_in line.now b)) }
{
    let items = line.0.as_slice();
    let mut fills = vec![in alloc; None; NAMED]?;
    let mut k = items.len();
    while k > 0 {
        k -= 1;
        if let BlockItem::Set(block, byte) = items[k] {
            fills[block.0 as usize] = Some(byte);
        }
    }
    Ok(fills)
}

/// Marks the blocks that a line sets, and takes the marks of those that it frees.
pub fn mark_line(line: &BlockLine, marks: &mut Vec<bool>)
    requires good { AreGoodItems line.now }
    requires whole { length marks.old.items ≡ 256 }
    ensures whole { length marks.new.items ≡ 256 }
    ensures marks { AreMarked line.now marks.old.items marks.new.items }
{
    let items = line.0.as_slice();
    let mut k = items.len();
    while k > 0 {
        k -= 1;
        match items[k] {
            BlockItem::Set(block, _) => marks[block.0 as usize] = true,
            BlockItem::Free(block) => marks[block.0 as usize] = false,
        }
    }
}
