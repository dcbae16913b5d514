// The bitmap of the inodes.
ghost use Rattle.std.specs.Prelude.{◌≡◌, IfErr, IfOk};
ghost use Rattle.mq_inodes.specs.MissingPages.{HasVolume, MissingOf, OfEach};
ghost use Rattle.mq_inodes.specs.Pages.{IsHeld, pages_of};
ghost use Rattle.mq_layout.specs.Places.{inode_bitmap as inode_bitmap_of};
ghost use Rattle.mq_tree.specs.Free.{first_free};

use crate::lack::Missing;
use crate::working::Working;
use mq_layout::{first_clear, inode_bitmap, inodes};
use std::alloc::Global;

impl<'a> Working<'a> {
    /// The least free inode.
    pub fn free_inode(&self, alloc: Global) -> Result<Option<u32>, Missing>
        requires { HasVolume self.now }
        ensures ok { IfOk result (λ found. OfEach self.now (λ v. found ≡ first_free 0 v)) }
        ensures held { IfOk result (λ _. IsHeld (pages_of self.now) (inode_bitmap_of self.now.geometry)) }
        ensures lack { IfErr result (MissingOf self.now (λ v b. b ≡ inode_bitmap_of self.now.geometry)) }
    {
        let marks = self.content(alloc, inode_bitmap(self.geometry))?;
        Ok(first_clear(marks, 0, inodes(self.geometry)))
    }
}
