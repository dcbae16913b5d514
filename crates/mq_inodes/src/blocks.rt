// The blocks of an inode.
ghost use Rattle.std.specs.Prelude.{◌≡◌, ◌++◌, ◌<◌, ◌≤◌, ◌^◌, IfErr, IfOk, Some, length, take};
ghost use Rattle.mq_inodes.specs.MissingPages.{HasVolume, MissingOf, OfEach};
ghost use Rattle.mq_inodes.specs.Pages.{IsHeld, pages_of};
ghost use Rattle.mq_layout.specs.Bits.{pointer_of};
ghost use Rattle.mq_tree.specs.Free.{needs as needs_of};
ghost use Rattle.mq_tree.specs.Decoded.{table_of};
ghost use Rattle.mq_tree.specs.Laid.{inode_of};
ghost use Rattle.mq_tree.specs.Sound.{blocks_for};
ghost use Rattle.mq_tree.specs.Volume.{node};

use crate::lack::Missing;
use crate::working::Working;
use mq_blocks::{Block, BlockNo, OutOfMemory};
use mq_layout::{FILE_LIMIT, Inode, pointer};
use std::alloc::Global;

/// The number of pointers in an inode.
pub const DIRECT: u32 = 12;

/// The number of blocks that `size` bytes take.
pub fn count_for(size: u64) -> u32
    requires { size ≤ 4243456 }
    ensures is { result ≡ blocks_for size }
    ensures few { result ≤ 1036 }
{
    ((size + 4095) / 4096) as u32
}

/// The number of blocks that have to be taken to go from `have` to `want` blocks. More than twelve
/// need a block of pointers, too.
pub fn needs(have: u32, want: u32) -> u32
    requires { want < 2 ^ 31 }
    ensures { result ≡ needs_of have want }
{
    let pointers = u32::from(have <= DIRECT && want > DIRECT);
    want.saturating_sub(have) + pointers
}

/// Adds the first pointers of a block of pointers.
fn push_pointers(blocks: &mut Vec<BlockNo>, page: &Block, count: u32) -> Result<(), OutOfMemory>
    requires { count ≤ 1024 }
    ensures { IfOk result (λ _. blocks.new.items ≡ blocks.old.items ++ table_of count (pointer_of page.now)) }
{
    for k in 0..count {
        blocks.push(BlockNo(pointer(page, k)))?;
    }
    Ok(())
}

/// The direct blocks of an inode, at most twelve.
fn direct_blocks(alloc: Global, inode: &Inode, count: u32) -> Result<Vec<BlockNo>, OutOfMemory>
    requires { length inode.now.direct ≡ 12 }
    ensures { IfOk result (λ blocks. blocks.items ≡ take count inode.now.direct) }
{
    let mut blocks = Vec::with_capacity(alloc, count as usize)?;
    for k in 0..count.min(DIRECT) {
        blocks.push(BlockNo(inode.direct[k as usize]))?;
    }
    Ok(blocks)
}

impl<'a> Working<'a> {
    /// The blocks of an inode, in order. The block of pointers is looked at if there is one.
    pub(crate) fn blocks(
        &self,
        alloc: Global,
        i: u32,
        inode: &Inode,
    ) -> Result<Vec<BlockNo>, Missing>
        requires possible { HasVolume self.now }
        requires inode { OfEach self.now (λ v. inode.now ≡ inode_of (node v i)) }
        ensures ok { IfOk result (λ blocks. OfEach self.now (λ v. blocks.items ≡ (node v i).blocks)) }
        ensures pointers { IfOk result (λ blocks. 12 < length blocks.items
            → IsHeld (pages_of self.now) inode.now.indirect) }
        ensures lack { IfErr result (MissingOf self.now (λ v b. (node v i).indirect ≡ Some b)) }
    {
        let count = count_for(inode.size);
        let mut blocks = direct_blocks(alloc, inode, count)?;
        if count > DIRECT {
            let page = self.content(alloc, BlockNo(inode.indirect))?;
            push_pointers(&mut blocks, page, count - DIRECT)?;
        }
        Ok(blocks)
    }
}
