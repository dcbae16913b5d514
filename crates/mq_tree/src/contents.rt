// What the inodes of a file system are: the bytes of files, and the names of directories.
ghost use Rattle.std.specs.Prelude.{◌≡◌, ◌++◌, ◌∷◌, [], IfErr, IfOk, IsTrue, OnOk};
ghost use Rattle.mq_blocks.specs.Blocks.{zeros};
ghost use Rattle.mq_layout.specs.Inodes.{IsInode};
ghost use Rattle.mq_tree.specs.Clean.{AreDirs, AreOnce, ArePointers, IsTable};
ghost use Rattle.mq_tree.specs.Decoded.{body_of, byte_of, inodes_in, table_of, volume_in};
ghost use Rattle.mq_tree.specs.Directories.{IsOnce, RefusesNames, RefusesTwin};
ghost use Rattle.mq_tree.specs.Parts.{AreDirBlocks};
ghost use Rattle.mq_tree.specs.Trees.{IsAlike, IsSameBody, body_kept, kept};

use crate::corrupt::{CorruptCause, MountRefusal};
use crate::directory::Directory;
use crate::duplicate_names::read_directory;
use crate::file_tails::FILE;
use crate::findings::lesser;
use crate::path::Bytes;
use crate::pointers::{block_count, pointer_at};
use crate::stored::{corrupt, stored_block};
use crate::table::DIRECTORY;
use mq_blocks::{Block, BlockNo, Geometry, OutOfMemory};
use mq_layout::Inode;
use std::alloc::Global;

/// What an inode is.
#[derive(Drop)]
pub enum InodeContent {
    Free,
    File(Bytes),
    Dir(Directory),
}

/// The bytes of a file.
fn read_file(
    alloc: Global,
    blocks: &[Option<Block>],
    zero: &Block,
    inode: &Inode,
) -> Result<Vec<u8>, OutOfMemory>
    requires zero { zero.now ≡ zeros }
    requires form { IsInode inode.now }
    ensures { IfOk result (λ bytes. bytes.items ≡ table_of inode.now.size (byte_of blocks.now inode.now)) }
{
    let mut bytes = Vec::with_capacity(alloc, inode.size as usize)?;
    for place in 0..block_count(inode) {
        let b = pointer_at(blocks, zero, inode, place);
        let block = stored_block(blocks, zero, b).bytes();
        let count = (inode.size - 4096 * place as u64).min(4096) as usize;
        bytes.extend_from_slice(&block[..count])?;
    }
    Ok(bytes)
}

/// What an inode is, where no name stands twice in a directory. A file's bytes are read only to be kept.
fn read_content(
    alloc: Global,
    blocks: &[Option<Block>],
    zero: &Block,
    inode: &Inode,
    keeps: bool,
) -> Result<InodeContent, MountRefusal>
    requires zero { zero.now ≡ zeros }
    requires form { IsInode inode.now }
    requires dir { AreDirBlocks blocks.now inode.now }
    ensures ok { IfOk result (λ content. IsTrue keeps
        → IsSameBody (body_kept content) (body_of blocks.now inode.now)) }
    ensures once { OnOk result (IsOnce blocks.now inode.now) }
    ensures cause { IfErr result (RefusesNames blocks.now inode.now) }
{
    if inode.kind == FILE {
        if !keeps {
            return Ok(InodeContent::Free);
        }
        let bytes = read_file(alloc, blocks, zero, inode)?;
        return Ok(InodeContent::File(Bytes(bytes)));
    }
    if inode.kind == DIRECTORY {
        let names = read_directory(alloc, blocks, zero, inode)?;
        return Ok(InodeContent::Dir(names));
    }
    Ok(InodeContent::Free)
}

/// Adds what an inode is, if it is to be kept.
fn keep(
    found: &mut Vec<InodeContent>,
    content: InodeContent,
    keeps: bool,
) -> Result<(), OutOfMemory>
    ensures { OnOk result (IsTrue keeps → found.new.items ≡ found.old.items ++ content ∷ []) }
{
    if keeps {
        found.push(content)?;
    }
    Ok(())
}

/// What all inodes are, by number, where no name stands twice in a directory; or the least block of all in
/// which one does. Where nothing is to be kept it only looks for that block: blocks that many inodes share take
/// no more memory than others.
pub fn read_contents(
    alloc: Global,
    geometry: Geometry,
    blocks: &[Option<Block>],
    zero: &Block,
    inodes: &[Inode],
    keeps: bool,
) -> Result<Vec<InodeContent>, MountRefusal>
    requires zero { zero.now ≡ zeros }
    requires inodes { inodes.now ≡ inodes_in geometry blocks.now }
    requires table { IsTable geometry blocks.now }
    requires dirs { AreDirs geometry blocks.now }
    requires pointers { ArePointers geometry blocks.now }
    ensures ok { IfOk result (λ found. IsTrue keeps
        → IsAlike (kept found.items) (volume_in geometry blocks.now)) }
    ensures once { OnOk result (AreOnce (volume_in geometry blocks.now)) }
    ensures cause { IfErr result (RefusesTwin geometry blocks.now) }
{
    let mut found = Vec::with_capacity(alloc, inodes.len())?;
    let mut twin = None;
    for (i, inode) in inodes.iter().enumerate() {
        match read_content(alloc, blocks, zero, inode, keeps) {
            Ok(content) => keep(&mut found, content, keeps)?,
            Err(
                MountRefusal::Corrupt {
                    block: BlockNo(b),
                    ..
                },
            ) => twin = lesser(twin, Some(b)),
            Err(MountRefusal::OutOfMemory) => return Err(MountRefusal::OutOfMemory),
        }
    }
    match twin {
        Some(b) => Err(corrupt(CorruptCause::Twin, b)),
        None => Ok(found),
    }
}
