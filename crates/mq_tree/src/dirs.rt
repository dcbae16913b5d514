// The second phase of a mount: the blocks of directories.
ghost use Rattle.std.specs.Prelude.{◌≡◌, ◌<◌, ℕ, MatchOption, length};
ghost use Rattle.std.specs.Bool.{MatchBool};
ghost use Rattle.mq_blocks.specs.Blocks.{zeros};
ghost use Rattle.mq_layout.specs.Inodes.{IsInode};
ghost use Rattle.mq_tree.specs.Clean.{AreDirs, ArePointers, IsDirBlock, IsTable};
ghost use Rattle.mq_tree.specs.Corrupt.{BadDir};
ghost use Rattle.mq_tree.specs.Decoded.{count_of, inodes_in};
ghost use Rattle.mq_tree.specs.Least.{IsLeastOf};
ghost use Rattle.mq_tree.specs.Parts.{AddsMarks, IsBadBlock, LeadsTo};

use crate::pointers::{DIRECT, block_count, is_in_zone, pointer_at};
use crate::stored::stored_block;
use crate::table::DIRECTORY;
use mq_blocks::{Block, Geometry};
use mq_layout::{Inode, SLOTS_PER_BLOCK, read_slot};

/// The most home blocks that a drive has.
const MOST_HOMES: usize = 32768;

/// Whether the slots of a block, and the bytes after them, are in their form.
fn is_dir_block(block: &Block) -> bool
    ensures { MatchBool result (IsDirBlock block.now) (IsBadBlock block.now) }
{
    for at in 0..SLOTS_PER_BLOCK {
        if read_slot(block, at).is_err() {
            return false;
        }
    }
    let bytes = block.bytes();
    for k in 4080..4096 {
        if bytes[k] != 0 {
            return false;
        }
    }
    true
}

/// The block at this place of an inode, if it lies in a zone, and so does the block of pointers in which
/// its pointer stands.
fn block_in_zone(
    geometry: Geometry,
    blocks: &[Option<Block>],
    zero: &Block,
    inode: &Inode,
    place: u32,
) -> Option<u32>
    requires zero { zero.now ≡ zeros }
    requires form { IsInode inode.now }
    requires place { place < 1036 }
    ensures { MatchOption result ((b : ℕ) → LeadsTo geometry blocks.now inode.now place b → ⊥)
        (LeadsTo geometry blocks.now inode.now place) }
{
    if place >= DIRECT && !is_in_zone(geometry, inode.indirect) {
        return None;
    }
    let b = pointer_at(blocks, zero, inode, place);
    if is_in_zone(geometry, b) {
        return Some(b);
    }
    None
}

/// Marks such blocks of an inode, if it is a directory.
fn mark_blocks(
    geometry: Geometry,
    blocks: &[Option<Block>],
    zero: &Block,
    inode: &Inode,
    marks: &mut [bool],
)
    requires zero { zero.now ≡ zeros }
    requires form { IsInode inode.now }
    requires size { length marks.old ≡ 32768 }
    ensures { AddsMarks geometry blocks.now inode.now (count_of inode.now) marks.old marks.new }
{
    if inode.kind != DIRECTORY {
        return;
    }
    for place in 0..block_count(inode) {
        if let Some(b) = block_in_zone(geometry, blocks, zero, inode, place) {
            marks[b as usize] = true;
        }
    }
}

/// The least block of a directory that is not in its form. Where pointers are wrong, a block counts only if
/// it lies in a zone, and so does the block of pointers in which its pointer stands.
pub fn bad_dir_block(
    geometry: Geometry,
    blocks: &[Option<Block>],
    zero: &Block,
    inodes: &[Inode],
) -> Option<u32>
    requires zero { zero.now ≡ zeros }
    requires inodes { inodes.now ≡ inodes_in geometry blocks.now }
    requires table { IsTable geometry blocks.now }
    ensures least { IsLeastOf (BadDir geometry blocks.now) result }
    ensures dirs { MatchOption result (ArePointers geometry blocks.now → AreDirs geometry blocks.now)
        (λ _. Unit {0}) }
{
    let mut marks = [false; MOST_HOMES];
    for inode in inodes {
        mark_blocks(geometry, blocks, zero, inode, &mut marks);
    }
    for b in geometry.meta()..geometry.homes() {
        if marks[b as usize] && !is_dir_block(stored_block(blocks, zero, b)) {
            return Some(b);
        }
    }
    None
}
