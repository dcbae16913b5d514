// A phase of a mount: the bytes past the end of a file are zeros.
ghost use Rattle.std.specs.Prelude.{◌≡◌, MatchOption};
ghost use Rattle.mq_blocks.specs.Blocks.{zeros};
ghost use Rattle.mq_layout.specs.Inodes.{IsInode};
ghost use Rattle.mq_tree.specs.Clean.{AreEnded, ArePointers, IsTable};
ghost use Rattle.mq_tree.specs.Corrupt.{HasTail};
ghost use Rattle.mq_tree.specs.Decoded.{inodes_in};
ghost use Rattle.mq_tree.specs.Least.{IsLeast};
ghost use Rattle.mq_tree.specs.Parts.{HasEndAt, IsEnded};

use crate::findings::lesser;
use crate::pointers::pointer_at;
use crate::stored::stored_block;
use mq_blocks::{Block, Geometry};
use mq_layout::Inode;

/// The kind of a file.
pub const FILE: u8 = 1;

/// The last block of a file, if a byte past the end is not 0.
fn bad_end(blocks: &[Option<Block>], zero: &Block, inode: &Inode) -> Option<u32>
    requires zero { zero.now ≡ zeros }
    requires form { IsInode inode.now }
    ensures { MatchOption result (IsEnded blocks.now inode.now) (HasEndAt blocks.now inode.now) }
{
    let from = (inode.size % 4096) as usize;
    if inode.kind != FILE || from == 0 {
        return None;
    }
    let b = pointer_at(blocks, zero, inode, (inode.size / 4096) as u32);
    let bytes = stored_block(blocks, zero, b).bytes();
    for k in from..4096 {
        if bytes[k] != 0 {
            return Some(b);
        }
    }
    None
}

/// The least block of a file in which a byte past the end is not 0.
pub fn bad_tail(
    geometry: Geometry,
    blocks: &[Option<Block>],
    zero: &Block,
    inodes: &[Inode],
) -> Option<u32>
    requires zero { zero.now ≡ zeros }
    requires inodes { inodes.now ≡ inodes_in geometry blocks.now }
    requires table { IsTable geometry blocks.now }
    requires pointers { ArePointers geometry blocks.now }
    ensures { MatchOption result (AreEnded geometry blocks.now) (IsLeast (HasTail geometry blocks.now)) }
{
    let mut best = None;
    for inode in inodes {
        best = lesser(best, bad_end(blocks, zero, inode));
    }
    best
}
