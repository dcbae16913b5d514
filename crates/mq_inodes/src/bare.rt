// Inodes without blocks.
ghost use Rattle.std.specs.Prelude.{◌≡◌, ◌≢◌, ◌<◌, ℕ, [], None, OnOk};
ghost use Rattle.mq_inodes.specs.Edits.{Becomes, Carries, IsOver, KeepsHeld, KeepsKinds};
ghost use Rattle.mq_inodes.specs.Pages.{IsHeld, pages_of};
ghost use Rattle.mq_inodes.specs.Bare.{empty_body, with_inode};
ghost use Rattle.mq_layout.specs.Places.{inode_bitmap as inode_bitmap_of, inode_block as inode_block_of, inodes_of};
ghost use Rattle.mq_tree.specs.Laid.{inode_of};
ghost use Rattle.mq_tree.specs.Sound.{IsNode};
ghost use Rattle.mq_tree.specs.Volume.{Free, Volume, body, node};

use crate::walk::DIRECTORY;
use crate::working::Working;
use mq_blocks::OutOfMemory;
use mq_layout::Inode;
use std::alloc::Global;

/// The fields of an inode without blocks.
fn empty_inode(is_directory: bool) -> Inode
    ensures { result ≡ inode_of (record {
      body = empty_body is_directory;
      blocks = [];
      indirect = None;
      links = 1;
    }) }
{
    Inode {
        kind: if is_directory { DIRECTORY } else { 1 },
        links: 1,
        size: 0,
        direct: [0; 12],
        indirect: 0,
    }
}

impl<'a> Working<'a> {
    /// A free inode becomes an empty file or directory.
    pub fn make_inode(
        &mut self,
        alloc: Global,
        i: u32,
        is_directory: bool,
    ) -> Result<(), OutOfMemory>
        requires low { i < inodes_of self.old.geometry }
        requires marks { IsHeld (pages_of self.old) (inode_bitmap_of self.old.geometry) }
        requires inode { IsHeld (pages_of self.old) (inode_block_of self.old.geometry i) }
        ensures over { OnOk result (IsOver self.old self.new) }
        ensures kinds { OnOk result (KeepsKinds self.old self.new) }
        ensures keeps { OnOk result (KeepsHeld (pages_of self.old) (pages_of self.new)) }
        ensures rest { OnOk result ((b : ℕ)
            → b ≢ inode_bitmap_of self.old.geometry
            → b ≢ inode_block_of self.old.geometry i
            → pages_of self.new b ≡ pages_of self.old b) }
        ensures made { OnOk result ((v : Volume)
            → Carries self.old.geometry (pages_of self.old) v
            → IsNode (node v i)
            → body v i ≡ Free
            → Becomes self.old.geometry v (with_inode v i (empty_body is_directory)) self.old self.new) }
    {
        self.mark_inode(alloc, i, true)?;
        self.put_inode(alloc, i, &empty_inode(is_directory))
    }
}
