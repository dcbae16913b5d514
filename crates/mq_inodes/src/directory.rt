// Directories: the blocks with their slots, and what these say together.
ghost use Rattle.std.specs.Prelude.{◌≡◌, ◌≢◌, ◌≤◌, ◌*◌, ◌<◌, length, nat_le, true, IfErr, IfOk, OnOk, Some, None};
ghost use Rattle.std.specs.List.{All, Contains};
ghost use Rattle.mq_inodes.specs.Dirs.{AreDirsAt, names_of, slots_at};
ghost use Rattle.mq_inodes.specs.MissingPages.{HasVolume, MissingPages, MissingOf, OfEach};
ghost use Rattle.mq_inodes.specs.Pages.{IsHeld, content as content_at, pages_of};
ghost use Rattle.mq_layout.specs.Places.{names_limit};
ghost use Rattle.mq_tree.specs.Laid.{inode_of};
ghost use Rattle.mq_tree.specs.Requests.{count_names, names_in, unused as first_unused};
ghost use Rattle.mq_tree.specs.Volume.{Dir, body, find as find_name, has_block, node};

use crate::lack::Missing;
use crate::slots::{count_in, find_in, push_names, unused_after};
use crate::working::{Page, Working};
use mq_blocks::{Block, BlockNo, OutOfMemory};
use mq_layout::{Inode, NAMES_LIMIT, SLOTS_PER_BLOCK};
use mq_tree::Name;
use std::alloc::Global;

/// The number of blocks of a full directory.
const FULL: usize = 1036;

impl<'a> Working<'a> {
    /// The content of a block that is held.
    pub(crate) fn held(&self, b: BlockNo) -> &Block
        requires { IsHeld (pages_of self.now) b }
        ensures { result.now ≡ content_at (pages_of self.now b) }
    {
        match self.page(b) {
            Page::Held(block) => block,
            _ => unreachable!(),
        }
    }

    /// Checks that these blocks are known; the error lists those that are absent.
    pub fn look_for_all(&self, alloc: Global, blocks: &[BlockNo]) -> Result<(), Missing>
        ensures ok { OnOk result (All (λ b. pages_of self.now b ≢ None) blocks.now) }
        ensures lack { IfErr result (MissingPages (pages_of self.now) (Contains blocks.now)) }
    {
        let mut absent = Vec::new(alloc);
        for b in blocks {
            if let Page::Absent = self.page(*b) {
                absent.push(*b)?;
            }
        }
        if absent.is_empty() {
            return Ok(());
        }
        Err(Missing::Need(absent))
    }

    /// Checks that these blocks are held; the error lists those that are absent.
    pub(crate) fn look_for(&self, alloc: Global, blocks: &[BlockNo]) -> Result<(), Missing>
        requires { All (λ b. pages_of self.now b ≢ Some None) blocks.now }
        ensures ok { OnOk result (All (IsHeld (pages_of self.now)) blocks.now) }
        ensures lack { IfErr result (MissingPages (pages_of self.now) (Contains blocks.now)) }
    {
        self.look_for_all(alloc, blocks)
    }

    /// The blocks of a directory, which are held.
    pub fn directory(&self, alloc: Global, d: u32, inode: &Inode) -> Result<Vec<BlockNo>, Missing>
        requires possible { HasVolume self.now }
        requires inode { OfEach self.now (λ v. inode.now ≡ inode_of (node v d)) }
        requires kind { inode.now.kind ≡ 2 }
        ensures blocks { IfOk result (λ blocks. OfEach self.now (λ v. blocks.items ≡ (node v d).blocks)) }
        ensures held { IfOk result (λ blocks. AreDirsAt (pages_of self.now) blocks.items) }
        ensures slots { IfOk result (λ blocks. OfEach self.now
            (λ v. body v d ≡ Dir (slots_at (pages_of self.now) blocks.items))) }
        ensures few { IfOk result (λ blocks. length blocks.items ≤ 1036) }
        ensures pointers { IfOk result (λ blocks. 12 < length blocks.items
            → IsHeld (pages_of self.now) inode.now.indirect) }
        ensures lack { IfErr result (MissingOf self.now (λ v b. has_block (node v d) b ≡ true)) }
    {
        let blocks = self.blocks(alloc, d, inode)?;
        self.look_for(alloc, &blocks)?;
        Ok(blocks)
    }

    /// The inode under a name.
    pub(crate) fn find(&self, blocks: &[BlockNo], name: &[u8]) -> Option<u32>
        requires { AreDirsAt (pages_of self.now) blocks.now }
        ensures { result ≡ find_name name.now (slots_at (pages_of self.now) blocks.now) }
    {
        for b in blocks {
            if let Some(inode) = find_in(self.held(*b), name) {
                return Some(inode);
            }
        }
        None
    }

    /// The inode under a name. If there is none, the first unused slot, counted over the blocks.
    pub(crate) fn search_names(&self, blocks: &[BlockNo], name: &[u8]) -> (Option<u32>, Option<u32>)
        requires held { AreDirsAt (pages_of self.now) blocks.now }
        requires few { length blocks.now ≤ 1036 }
        ensures found { result.0 ≡ find_name name.now (slots_at (pages_of self.now) blocks.now) }
        ensures unused { result.0 ≡ None
            → result.1 ≡ first_unused 0 (slots_at (pages_of self.now) blocks.now) }
    {
        let mut unused = None;
        let mut first = 0;
        for b in blocks {
            let page = self.held(*b);
            if let Some(inode) = find_in(page, name) {
                return (Some(inode), None);
            }
            unused = unused_after(unused, first, page);
            first += SLOTS_PER_BLOCK;
        }
        (None, unused)
    }

    /// The number of names.
    pub fn count(&self, blocks: &[BlockNo]) -> u32
        requires held { AreDirsAt (pages_of self.now) blocks.now }
        requires few { length blocks.now ≤ 1036 }
        ensures { result ≡ count_names (slots_at (pages_of self.now) blocks.now) }
    {
        let mut count = 0;
        for b in blocks {
            count += count_in(self.held(*b));
        }
        count
    }

    /// Whether there is no room for one more name. The names are counted only if there are as many blocks
    /// as a full directory has.
    #[tactic(auto, using(crate::proofs::Dirs::room_below))]
    pub fn is_full(&self, blocks: &[BlockNo]) -> bool
        requires held { AreDirsAt (pages_of self.now) blocks.now }
        requires few { length blocks.now ≤ 1036 }
        ensures { result ≡ nat_le names_limit (count_names (slots_at (pages_of self.now) blocks.now)) }
    {
        if blocks.len() < FULL {
            return false;
        }
        self.count(blocks) >= NAMES_LIMIT
    }

    /// The names, in rising order of bytes.
    pub fn names(&self, alloc: Global, blocks: &[BlockNo]) -> Result<Vec<Name>, OutOfMemory>
        requires { AreDirsAt (pages_of self.now) blocks.now }
        ensures { IfOk result (λ names. names.items ≡ names_in (slots_at (pages_of self.now) blocks.now)) }
    {
        let mut names = self.unsorted(alloc, blocks)?;
        names.sort_by(|a, b| a.0.cmp(&b.0))?;
        Ok(names)
    }

    /// The names, in the order of the slots.
    fn unsorted(&self, alloc: Global, blocks: &[BlockNo]) -> Result<Vec<Name>, OutOfMemory>
        requires { AreDirsAt (pages_of self.now) blocks.now }
        ensures { IfOk result (λ names. names.items ≡ names_of (slots_at (pages_of self.now) blocks.now)) }
    {
        let mut names = Vec::new(alloc);
        for b in blocks {
            push_names(alloc, &mut names, self.held(*b))?;
        }
        Ok(names)
    }
}
