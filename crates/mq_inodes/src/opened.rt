// An inode that a request changes.
ghost use Rattle.std.specs.Prelude.{◌≡◌, ◌≤◌, length, IfErr, IfOk};
ghost use Rattle.mq_inodes.specs.Dirs.{AreDirsAt, slots_at};
ghost use Rattle.mq_inodes.specs.MissingPages.{HasVolume, MissingOf, OfEach};
ghost use Rattle.mq_inodes.specs.Opened.{HoldsPointers, IsOpened};
ghost use Rattle.mq_inodes.specs.Pages.{IsHeld, pages_of};
ghost use Rattle.mq_inodes.specs.Files.{IsFileOf};
ghost use Rattle.mq_inodes.specs.Walks.{IsDirectory, LooksIn};
ghost use Rattle.mq_layout.specs.Places.{inode_block as inode_block_of};
ghost use Rattle.mq_tree.specs.Requests.{entry_needs, unused as unused_in};
ghost use Rattle.mq_tree.specs.Volume.{Dir, body, node};

use crate::blocks::needs;
use crate::lack::Missing;
use crate::working::Working;
use mq_blocks::BlockNo;
use mq_layout::Inode;
use std::alloc::Global;

/// The number of an inode, its fields, and its blocks in order.
#[derive(Drop)]
pub struct Opened {
    pub number: u32,
    pub inode: Inode,
    pub blocks: Vec<BlockNo>,
}

/// The number of blocks that a directory with these blocks takes for one more name, if this is its first
/// unused slot.
pub fn name_need(blocks: &[BlockNo], unused: Option<u32>) -> u32
    requires { length blocks.now ≤ 1036 }
    ensures { result ≡ entry_needs (length blocks.now) unused }
{
    let count = blocks.len() as u32;
    match unused {
        Some(_) => 0,
        None => needs(count, count + 1),
    }
}

impl<'a> Working<'a> {
    /// A directory, with its blocks held.
    pub fn open_directory(&self, alloc: Global, d: u32) -> Result<Opened, Missing>
        requires possible { HasVolume self.now }
        requires dir { OfEach self.now (λ v. IsDirectory v d) }
        ensures number { IfOk result (λ o. o.number ≡ d) }
        ensures opened { IfOk result (λ o. OfEach self.now (λ v. IsOpened self.now.geometry v o)) }
        ensures slots { IfOk result (λ o. OfEach self.now
            (λ v. body v d ≡ Dir (slots_at (pages_of self.now) o.blocks.items))) }
        ensures dirs { IfOk result (λ o. AreDirsAt (pages_of self.now) o.blocks.items) }
        ensures few { IfOk result (λ o. length o.blocks.items ≤ 1036) }
        ensures table { IfOk result (λ o. IsHeld (pages_of self.now) (inode_block_of self.now.geometry d)) }
        ensures pointers { IfOk result (λ o. HoldsPointers (pages_of self.now) o) }
        ensures lack { IfErr result (MissingOf self.now (λ v b. LooksIn self.now.geometry v d b)) }
    {
        let inode = self.inode(alloc, d)?;
        let blocks = self.directory(alloc, d, &inode)?;
        Ok(Opened {
            number: d,
            inode,
            blocks,
        })
    }

    /// A file, with its block of pointers held if it has one.
    pub fn open_file(&self, alloc: Global, number: u32, inode: &Inode) -> Result<Opened, Missing>
        requires possible { HasVolume self.now }
        requires file { OfEach self.now (λ v. IsFileOf v number inode.now) }
        ensures number { IfOk result (λ o. (o.number ≡ number) × (o.inode ≡ inode.now)) }
        ensures opened { IfOk result (λ o. OfEach self.now (λ v. IsOpened self.now.geometry v o)) }
        ensures pointers { IfOk result (λ o. HoldsPointers (pages_of self.now) o) }
        ensures lack { IfErr result (MissingOf self.now (λ v b. (node v number).indirect ≡ Some b)) }
    {
        let blocks = self.blocks(alloc, number, inode)?;
        Ok(Opened {
            number,
            inode: *inode,
            blocks,
        })
    }

    /// The number of blocks that a directory takes for one more name.
    pub fn link_need(&self, blocks: &[BlockNo]) -> u32
        requires held { AreDirsAt (pages_of self.now) blocks.now }
        requires few { length blocks.now ≤ 1036 }
        ensures { result ≡ entry_needs (length blocks.now)
            (unused_in 0 (slots_at (pages_of self.now) blocks.now)) }
    {
        name_need(blocks, self.unused(blocks))
    }
}
