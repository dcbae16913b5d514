// Changes on pages of which some are absent, where what changes is known even so.
ghost use Rattle.std.specs.Prelude.{◌≡◌, ◌<◌, ℕ, OnOk};
ghost use Rattle.mq_inodes.specs.Bare.{empty_body, with_inode};
ghost use Rattle.mq_inodes.specs.Edits.{Becomes, Carries, IsOver, IsSameView};
ghost use Rattle.mq_inodes.specs.Pages.{IsHeld, pages_of};
ghost use Rattle.mq_inodes.specs.Unseen.{AreNoted};
ghost use Rattle.mq_layout.specs.Places.{inode_bitmap as inode_bitmap_of, inode_block as inode_block_of, inodes_of};
ghost use Rattle.mq_tree.specs.Sound.{IsNode};
ghost use Rattle.mq_tree.specs.Volume.{Free, Volume, body, node};

use crate::working::{Page, Working};
use mq_blocks::{BlockNo, OutOfMemory};
use mq_layout::inode_block;
use std::alloc::Global;

impl<'a> Working<'a> {
    /// Notes that blocks are free, as the bitmaps of their zones say.
    pub fn note_free(&mut self, blocks: &[BlockNo]) -> Result<(), OutOfMemory>
        ensures view { OnOk result (IsSameView self.old self.new) }
        ensures noted { OnOk result (AreNoted (pages_of self.old) (pages_of self.new) blocks.now) }
    {
        for b in blocks {
            self.put_free(*b)?;
        }
        Ok(())
    }

    /// A free inode becomes an empty file or directory. If the block of the inode is absent, it stays
    /// absent, and the pages are still those of the volume with that inode.
    pub fn make_unseen_inode(
        &mut self,
        alloc: Global,
        i: u32,
        is_directory: bool,
    ) -> Result<(), OutOfMemory>
        requires low { i < inodes_of self.old.geometry }
        requires possible { (v : Volume) × Carries self.old.geometry (pages_of self.old) v }
        requires marks { IsHeld (pages_of self.old) (inode_bitmap_of self.old.geometry) }
        ensures over { OnOk result (IsOver self.old self.new) }
        ensures carried { OnOk result ((v : Volume)
            → Carries self.old.geometry (pages_of self.old) v
            → IsNode (node v i)
            → body v i ≡ Free
            → Carries self.old.geometry (pages_of self.new) (with_inode v i (empty_body is_directory))) }
        ensures made { OnOk result (IsHeld (pages_of self.old) (inode_block_of self.old.geometry i)
            → (v : Volume)
            → Carries self.old.geometry (pages_of self.old) v
            → IsNode (node v i)
            → body v i ≡ Free
            → Becomes self.old.geometry v (with_inode v i (empty_body is_directory)) self.old self.new) }
    {
        if let Page::Absent = self.page(inode_block(self.geometry, i)) {
            return self.mark_inode(alloc, i, true);
        }
        self.make_inode(alloc, i, is_directory)
    }
}
