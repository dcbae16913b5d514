// Inodes.
ghost use Rattle.std.specs.Prelude.{◌≡◌, ◌<◌, IfErr, IfOk};
ghost use Rattle.mq_inodes.specs.MissingPages.{HasVolume, MissingPages, OfEach};
ghost use Rattle.mq_inodes.specs.Pages.{IsHeld, pages_of};
ghost use Rattle.mq_layout.specs.Places.{inode_block as inode_block_of, inodes_of};
ghost use Rattle.mq_tree.specs.Laid.{inode_of};
ghost use Rattle.mq_tree.specs.Volume.{node};

use crate::lack::Missing;
use crate::working::Working;
use mq_layout::{Inode, inode_block, inode_place, read_inode};
use std::alloc::Global;

impl<'a> Working<'a> {
    /// The fields of an inode.
    pub fn inode(&self, alloc: Global, i: u32) -> Result<Inode, Missing>
        requires low { i < inodes_of self.now.geometry }
        requires possible { HasVolume self.now }
        ensures ok { IfOk result (λ inode. OfEach self.now (λ v. inode ≡ inode_of (node v i))) }
        ensures held { IfOk result (λ _. IsHeld (pages_of self.now) (inode_block_of self.now.geometry i)) }
        ensures lack { IfErr result (MissingPages (pages_of self.now)
            (λ b. b ≡ inode_block_of self.now.geometry i)) }
    {
        let block = self.content(alloc, inode_block(self.geometry, i))?;
        match read_inode(block, inode_place(i)) {
            Ok(inode) => Ok(inode),
            Err(_) => unreachable!(),
        }
    }
}
