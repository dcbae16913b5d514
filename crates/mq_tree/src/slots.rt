// The slots of a directory, over its blocks.
ghost use Rattle.std.specs.Prelude.{◌≡◌, ◌+◌, ◌*◌, ◌≤◌, ◌<◌, length, MatchOption, Some, None};
ghost use Rattle.mq_blocks.specs.Blocks.{zeros};
ghost use Rattle.mq_blocks.specs.Windows.{window};
ghost use Rattle.mq_layout.specs.Inodes.{IsInode};
ghost use Rattle.mq_tree.specs.Decoded.{count_of, entry_of};
ghost use Rattle.mq_tree.specs.Parts.{AreDirBlocks};

use crate::pointers::pointer_at;
use crate::stored::stored_block;
use mq_blocks::Block;
use mq_layout::{Inode, SLOTS_PER_BLOCK, read_slot};

/// The fields of a used slot.
#[derive(Clone, Copy)]
pub struct Link<'a> {
    pub inode: u32,
    pub name: &'a [u8],
}

/// The name of this length in a slot of a block.
fn name_at(block: &Block, at: u32, count: u8) -> &[u8]
    requires { at < 15 }
    ensures { result.now ≡ window block.now (272 * at + 16) count }
{
    let from = 272 * at as usize + 16;
    &block.bytes()[from..from + count as usize]
}

/// The slot of this number, counted over the blocks of a directory.
pub fn slot_at<'a>(
    blocks: &'a [Option<Block>],
    zero: &'a Block,
    inode: &Inode,
    k: u32,
) -> Option<Link<'a>>
    requires zero { zero.now ≡ zeros }
    requires form { IsInode inode.now }
    requires kind { inode.now.kind ≡ 2 }
    requires dir { AreDirBlocks blocks.now inode.now }
    requires low { k < 15 * count_of inode.now }
    ensures { MatchOption result (entry_of blocks.now inode.now k ≡ None)
        (λ link. entry_of blocks.now inode.now k ≡ Some
        (record { inode = link.inode; name = link.name.now })) }
{
    let b = pointer_at(blocks, zero, inode, k / SLOTS_PER_BLOCK);
    let block = stored_block(blocks, zero, b);
    let at = k % SLOTS_PER_BLOCK;
    match read_slot(block, at) {
        Ok(Some(slot)) => Some(Link {
            inode: slot.inode,
            name: name_at(block, at, slot.length),
        }),
        _ => None,
    }
}
