// The number of names of a file.
ghost use Rattle.std.specs.Prelude.{◌≡◌, OnOk};
ghost use Rattle.mq_inodes.specs.Edits.{Becomes, Carries, IsOver};
ghost use Rattle.mq_inodes.specs.Opened.{MayCount};
ghost use Rattle.mq_inodes.specs.Pages.{IsHeld, pages_of};
ghost use Rattle.mq_layout.specs.Places.{inode_block as inode_block_of};
ghost use Rattle.mq_tree.specs.Requests.{with_links as with_links_of};
ghost use Rattle.mq_tree.specs.Volume.{Volume};

use crate::working::Working;
use mq_blocks::OutOfMemory;
use mq_layout::Inode;
use std::alloc::Global;

/// The same fields with another number of links.
fn with_links(inode: &Inode, links: u16) -> Inode
    ensures { result ≡ record {
      kind = inode.now.kind;
      links = links;
      size = inode.now.size;
      direct = inode.now.direct;
      indirect = inode.now.indirect;
    } }
{
    Inode {
        kind: inode.kind,
        links,
        size: inode.size,
        direct: inode.direct,
        indirect: inode.indirect,
    }
}

impl<'a> Working<'a> {
    /// A file gets another number of links.
    pub fn put_links(
        &mut self,
        alloc: Global,
        i: u32,
        inode: &Inode,
        links: u16,
    ) -> Result<(), OutOfMemory>
        requires possible { (v : Volume)
            × Carries self.old.geometry (pages_of self.old) v
            × MayCount self.old.geometry v i links inode.now }
        requires table { IsHeld (pages_of self.old) (inode_block_of self.old.geometry i) }
        ensures over { OnOk result (IsOver self.old self.new) }
        ensures counted { OnOk result ((v : Volume)
            → Carries self.old.geometry (pages_of self.old) v
            → MayCount self.old.geometry v i links inode.now
            → Becomes self.old.geometry v (with_links_of v i links) self.old self.new) }
    {
        self.put_inode(alloc, i, &with_links(inode, links))
    }
}
