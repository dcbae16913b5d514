// The second phase of a mount: the pointers of inodes.
ghost use Rattle.std.specs.Prelude.{◌≡◌, ◌≤◌, ◌<◌, ℕ, MatchOption, nat_lt, slice_index};
ghost use Rattle.std.specs.Bool.{MatchBool};
ghost use Rattle.mq_blocks.specs.Blocks.{zeros};
ghost use Rattle.mq_layout.specs.Inodes.{IsInode};
ghost use Rattle.mq_layout.specs.Places.{inodes_of};
ghost use Rattle.mq_tree.specs.Clean.{ArePointers, IsInZone, IsTable};
ghost use Rattle.mq_tree.specs.Corrupt.{BadPointer};
ghost use Rattle.mq_tree.specs.Decoded.{count_of, inodes_in, pointer_to, the_inode};
ghost use Rattle.mq_tree.specs.Least.{IsLeast, IsLeastOf};
ghost use Rattle.mq_tree.specs.Pointers.{AreFar, AreNear, HasWrong, IsRight};

use crate::findings::lesser;
use crate::stored::stored_block;
use mq_blocks::{Block, Geometry};
use mq_layout::{FILE_LIMIT, Inode, POINTERS_PER_BLOCK, inode_block, pointer};

/// The number of pointers in an inode.
pub const DIRECT: u32 = 12;

/// The number of blocks that an inode has.
pub fn block_count(inode: &Inode) -> u32
    requires { IsInode inode.now }
    ensures is { result ≡ count_of inode.now }
    ensures few { result ≤ 1036 }
{
    (inode.size.min(FILE_LIMIT) as u32 + 4095) / 4096
}

/// The pointer to a block of an inode.
pub fn pointer_at(blocks: &[Option<Block>], zero: &Block, inode: &Inode, place: u32) -> u32
    requires zero { zero.now ≡ zeros }
    requires form { IsInode inode.now }
    requires place { place < 1036 }
    ensures { result ≡ pointer_to blocks.now inode.now place }
{
    if place < DIRECT {
        return inode.direct[place as usize];
    }
    pointer(stored_block(blocks, zero, inode.indirect), place - DIRECT)
}

pub fn is_in_zone(geometry: Geometry, block: u32) -> bool
    ensures { MatchBool result (IsInZone geometry block) (IsInZone geometry block → ⊥) }
{
    block >= geometry.meta() && block < geometry.homes()
}

/// Whether a pointer leads into a zone if it is wanted, and else is 0.
fn is_right(geometry: Geometry, pointer: u32, wanted: bool) -> bool
    ensures { MatchBool result (IsRight geometry wanted pointer) (IsRight geometry wanted pointer → ⊥) }
{
    if wanted {
        is_in_zone(geometry, pointer)
    } else {
        pointer == 0
    }
}

/// Whether the pointers in the inode are right.
fn are_near(geometry: Geometry, inode: &Inode, count: u32) -> bool
    requires { IsInode inode.now }
    ensures { MatchBool result (AreNear geometry inode.now count) ((k : ℕ)
        × (k < 12)
        × (IsRight geometry (nat_lt k count) (slice_index inode.now.direct k) → ⊥)) }
{
    for k in 0..DIRECT {
        if !is_right(geometry, inode.direct[k as usize], k < count) {
            return false;
        }
    }
    true
}

/// Whether those in its block of pointers are right.
fn are_far(
    geometry: Geometry,
    blocks: &[Option<Block>],
    zero: &Block,
    inode: &Inode,
    count: u32,
) -> bool
    requires zero { zero.now ≡ zeros }
    requires form { IsInode inode.now }
    ensures { MatchBool result (AreFar geometry blocks.now inode.now count) ((k : ℕ)
        × (12 ≤ k)
        × (k < 1036)
        × (IsRight geometry (nat_lt k count) (pointer_to blocks.now inode.now k) → ⊥)) }
{
    for k in DIRECT..DIRECT + POINTERS_PER_BLOCK {
        let found = pointer_at(blocks, zero, inode, k);
        if !is_right(geometry, found, k < count) {
            return false;
        }
    }
    true
}

/// The least block in which a pointer of an inode is wrong.
fn bad_inode(
    geometry: Geometry,
    blocks: &[Option<Block>],
    zero: &Block,
    i: u32,
    inode: &Inode,
) -> Option<u32>
    requires zero { zero.now ≡ zeros }
    requires low { i < inodes_of geometry }
    requires is { inode.now ≡ the_inode geometry blocks.now i }
    requires form { IsInode inode.now }
    ensures { IsLeastOf (HasWrong geometry blocks.now i) result }
{
    let count = block_count(inode);
    if !are_near(geometry, inode, count) || !is_right(geometry, inode.indirect, count > DIRECT) {
        return Some(inode_block(geometry, i).0);
    }
    if count > DIRECT && !are_far(geometry, blocks, zero, inode, count) {
        return Some(inode.indirect);
    }
    None
}

/// The least block in which a pointer leads into no zone, or is not 0 where an inode has no block for it.
pub fn bad_pointer(
    geometry: Geometry,
    blocks: &[Option<Block>],
    zero: &Block,
    inodes: &[Inode],
) -> Option<u32>
    requires zero { zero.now ≡ zeros }
    requires inodes { inodes.now ≡ inodes_in geometry blocks.now }
    requires table { IsTable geometry blocks.now }
    ensures { MatchOption result (ArePointers geometry blocks.now) (IsLeast (BadPointer geometry blocks.now)) }
{
    let mut best = None;
    for (i, inode) in inodes.iter().enumerate() {
        best = lesser(best, bad_inode(geometry, blocks, zero, i as u32, inode));
    }
    best
}
