// Lists of blocks in the bytes of a descriptor's two blocks.
ghost use Rattle.std.specs.Prelude.{◌≡◌, ◌≤◌, ◌<◌, ◌+◌, ◌*◌, ◌++◌, length, drop, IfOk};
ghost use Rattle.mq_blocks.specs.Windows.{number_at, numbers};

use crate::header::{ENTRIES, HEADER};
use mq_blocks::bytes::u32_at;
use mq_blocks::{BlockNo, OutOfMemory};
use std::alloc::Global;

/// The entry of this number, counted over both lists.
fn entry_at(block: &[u8], before: &[u8], index: usize) -> u32
    requires whole { length block.now ≡ 4096 }
    requires further { length before.now ≡ 4096 }
    requires inside { index < 2034 }
    ensures { result ≡ number_at 4 (56 + 4 * index) (block.now ++ before.now) }
{
    if index < ENTRIES {
        return u32_at(block, HEADER + 4 * index);
    }
    u32_at(before, 4 * (index - ENTRIES))
}

/// The blocks whose numbers stand from this entry on.
pub fn read_list(
    alloc: Global,
    block: &[u8],
    before: &[u8],
    first: usize,
    count: usize,
) -> Result<Vec<BlockNo>, OutOfMemory>
    requires whole { length block.now ≡ 4096 }
    requires further { length before.now ≡ 4096 }
    requires inside { first + count ≤ 2034 }
    ensures { IfOk result (λ v. v.items ≡ numbers count (drop (56 + 4 * first) (block.now ++ before.now))) }
{
    let mut list = Vec::with_capacity(alloc, count)?;
    for i in 0..count {
        list.push(BlockNo(entry_at(block, before, first + i)))?;
    }
    Ok(list)
}
