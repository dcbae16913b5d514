// A phase of a mount: slots name used inodes, and not the root.
ghost use Rattle.std.specs.Prelude.{◌≡◌, ◌<◌, MatchOption, Some};
ghost use Rattle.std.specs.Bool.{MatchBool};
ghost use Rattle.mq_blocks.specs.Blocks.{zeros};
ghost use Rattle.mq_layout.specs.Inodes.{IsInode};
ghost use Rattle.mq_layout.specs.Slots.{Entry};
ghost use Rattle.mq_tree.specs.Clean.{AreDirs, AreNamed, ArePointers, IsDirBlock, IsTable};
ghost use Rattle.mq_tree.specs.Corrupt.{BadName};
ghost use Rattle.mq_tree.specs.Decoded.{inodes_in, slot_of, volume_in};
ghost use Rattle.mq_tree.specs.Least.{IsLeast, IsLeastOf};
ghost use Rattle.mq_tree.specs.Parts.{AreDirBlocks, HasBadName, IsNamedBy, NameAll, NamesOther, NamesRight};

use crate::findings::lesser;
use crate::pointers::{block_count, pointer_at};
use crate::stored::stored_block;
use crate::table::DIRECTORY;
use mq_blocks::{Block, Geometry};
use mq_layout::{Inode, SLOTS_PER_BLOCK, read_slot};

/// Whether a slot may name this inode: it is used, and not the root.
fn is_named(inodes: &[Inode], inode: u32) -> bool
    ensures { MatchBool result (IsNamedBy inodes.now inode) (IsNamedBy inodes.now inode → ⊥) }
{
    match inodes.get(inode as usize) {
        Some(found) => inode != 0 && found.kind != 0,
        None => false,
    }
}

/// Whether a slot of a block is unused, or names such an inode.
fn slot_names(inodes: &[Inode], block: &Block, at: u32) -> bool
    requires at { at < 15 }
    requires block { IsDirBlock block.now }
    ensures { MatchBool result (NamesRight inodes.now block.now at) ((e : Entry)
        × (slot_of block.now at ≡ Some e)
        × (IsNamedBy inodes.now e.inode → ⊥)) }
{
    match read_slot(block, at) {
        Ok(Some(slot)) => is_named(inodes, slot.inode),
        Ok(None) => true,
        Err(_) => false,
    }
}

/// Whether all slots of a block name such inodes.
fn name_all(inodes: &[Inode], block: &Block) -> bool
    requires { IsDirBlock block.now }
    ensures { MatchBool result (NameAll inodes.now block.now) (NamesOther inodes.now block.now) }
{
    for at in 0..SLOTS_PER_BLOCK {
        if !slot_names(inodes, block, at) {
            return false;
        }
    }
    true
}

/// The least block of a directory with a slot that names no such inode.
fn bad_name_in(
    blocks: &[Option<Block>],
    zero: &Block,
    inodes: &[Inode],
    inode: &Inode,
) -> Option<u32>
    requires zero { zero.now ≡ zeros }
    requires form { IsInode inode.now }
    requires dir { AreDirBlocks blocks.now inode.now }
    ensures { IsLeastOf (HasBadName blocks.now inodes.now inode.now) result }
{
    if inode.kind != DIRECTORY {
        return None;
    }
    let mut least = None;
    for place in 0..block_count(inode) {
        let b = pointer_at(blocks, zero, inode, place);
        if !name_all(inodes, stored_block(blocks, zero, b)) {
            least = lesser(least, Some(b));
        }
    }
    least
}

/// The least block of a directory with a slot that names inode 0, a free inode or none.
pub fn bad_name(
    geometry: Geometry,
    blocks: &[Option<Block>],
    zero: &Block,
    inodes: &[Inode],
) -> Option<u32>
    requires zero { zero.now ≡ zeros }
    requires inodes { inodes.now ≡ inodes_in geometry blocks.now }
    requires table { IsTable geometry blocks.now }
    requires dirs { AreDirs geometry blocks.now }
    requires pointers { ArePointers geometry blocks.now }
    ensures { MatchOption result (AreNamed (volume_in geometry blocks.now))
        (IsLeast (BadName geometry blocks.now)) }
{
    let mut least = None;
    for (i, inode) in inodes.iter().enumerate() {
        least = lesser(least, bad_name_in(blocks, zero, inodes, inode));
    }
    least
}
