// A phase of a mount: no name stands twice in a directory.
ghost use Rattle.std.specs.Prelude.{◌≡◌, IfErr, IfOk, OnOk};
ghost use Rattle.mq_blocks.specs.Blocks.{zeros};
ghost use Rattle.mq_layout.specs.Inodes.{IsInode};
ghost use Rattle.mq_tree.specs.Decoded.{body_of};
ghost use Rattle.mq_tree.specs.Directories.{AreSameNames, HasNameOf, IsOnce, RefusesNames};
ghost use Rattle.mq_tree.specs.Least.{IsLeastOf};
ghost use Rattle.mq_tree.specs.Parts.{AreDirBlocks};
ghost use Rattle.mq_tree.specs.Volume.{slots_of};

use crate::corrupt::{CorruptCause, MountRefusal};
use crate::directory::Directory;
use crate::findings::lesser;
use crate::pointers::{block_count, pointer_at};
use crate::slots::slot_at;
use crate::stored::corrupt;
use mq_blocks::Block;
use mq_layout::{Inode, SLOTS_PER_BLOCK};
use std::alloc::Global;

/// The least block of a directory with a slot that has one of these names.
fn block_with_name(
    blocks: &[Option<Block>],
    zero: &Block,
    inode: &Inode,
    names: &Directory,
) -> Option<u32>
    requires zero { zero.now ≡ zeros }
    requires form { IsInode inode.now }
    requires kind { inode.now.kind ≡ 2 }
    requires dir { AreDirBlocks blocks.now inode.now }
    ensures { IsLeastOf (HasNameOf blocks.now inode.now names.now) result }
{
    if names.is_empty() {
        return None;
    }
    let mut least = None;
    for k in 0..SLOTS_PER_BLOCK * block_count(inode) {
        if let Some(link) = slot_at(blocks, zero, inode, k) {
            if names.get(link.name).is_some() {
                let b = pointer_at(blocks, zero, inode, k / SLOTS_PER_BLOCK);
                least = lesser(least, Some(b));
            }
        }
    }
    least
}

/// The names of a directory, where none stands twice; or the least block of a slot whose name stands in
/// another slot too.
pub fn read_directory(
    alloc: Global,
    blocks: &[Option<Block>],
    zero: &Block,
    inode: &Inode,
) -> Result<Directory, MountRefusal>
    requires zero { zero.now ≡ zeros }
    requires form { IsInode inode.now }
    requires kind { inode.now.kind ≡ 2 }
    requires dir { AreDirBlocks blocks.now inode.now }
    ensures ok { IfOk result (λ names. AreSameNames names (slots_of (body_of blocks.now inode.now))) }
    ensures once { OnOk result (IsOnce blocks.now inode.now) }
    ensures cause { IfErr result (RefusesNames blocks.now inode.now) }
{
    let mut names = Directory::new(alloc);
    let mut twins = Directory::new(alloc);
    for k in 0..SLOTS_PER_BLOCK * block_count(inode) {
        if let Some(link) = slot_at(blocks, zero, inode, k) {
            if !names.add(alloc, link.name, link.inode)? {
                twins.add(alloc, link.name, link.inode)?;
            }
        }
    }
    match block_with_name(blocks, zero, inode, &twins) {
        Some(b) => Err(corrupt(CorruptCause::Twin, b)),
        None => Ok(names),
    }
}
