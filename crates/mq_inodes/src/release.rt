// Blocks and inodes that are freed.
ghost use Rattle.std.specs.Prelude.{◌≡◌, ◌<◌, ◌≤◌, ℕ, List, [], ◌∷◌, drop, length, slice_index, OnOk};
ghost use Rattle.std.specs.List.{All};
ghost use Rattle.mq_inodes.specs.Edits.{Becomes, Carries, IsOver};
ghost use Rattle.mq_inodes.specs.Opened.{HoldsPointers, IsOpened, IsReleasable, MayCut, cut_file};
ghost use Rattle.mq_inodes.specs.Pages.{IsHeld, pages_of};
ghost use Rattle.mq_inodes.specs.Released.{CutsPointers, IsCutInode, Releases, gone_from};
ghost use Rattle.mq_layout.specs.Bits.{pointer_of};
ghost use Rattle.mq_layout.specs.Places.{inode_bitmap as inode_bitmap_of, inode_block as inode_block_of};
ghost use Rattle.mq_tree.specs.Requests.{freed};
ghost use Rattle.mq_tree.specs.Volume.{Volume};

use crate::blocks::DIRECT;
use crate::opened::Opened;
use crate::working::Working;
use mq_blocks::{Block, BlockNo, OutOfMemory};
use mq_layout::{Inode, POINTERS_PER_BLOCK, set_pointer};
use mq_pages::Kind;
use std::alloc::Global;

/// The fields of a free inode.
const FREE: Inode = Inode {
    kind: 0,
    links: 0,
    size: 0,
    direct: [0; 12],
    indirect: 0,
};

/// Clears the pointers from this one on.
fn clear_pointers(page: &mut Block, from: u32)
    ensures whole { length page.new ≡ 4096 }
    ensures bytes { (k : ℕ) → slice_index page.new k < 256 }
    ensures left { (k : ℕ) → k < 1024 → k < from → pointer_of page.new k ≡ pointer_of page.old k }
    ensures cut { (k : ℕ) → k < 1024 → from ≤ k → pointer_of page.new k ≡ 0 }
{
    clear_pointers_of(page.bytes_mut(), from);
}

fn clear_pointers_of(block: &mut [u8], from: u32)
    requires { length block.old ≡ 4096 }
    ensures bytes { (k : ℕ) → slice_index block.new k < 256 }
    ensures left { (k : ℕ) → k < 1024 → k < from → pointer_of block.new k ≡ pointer_of block.old k }
    ensures cut { (k : ℕ) → k < 1024 → from ≤ k → pointer_of block.new k ≡ 0 }
{
    for k in from..POINTERS_PER_BLOCK {
        set_pointer(block, k, 0);
    }
}

/// The fields of an inode that has `count` blocks left, and this size.
fn cut_inode(inode: &Inode, count: u32, size: u64) -> Inode
    requires { length inode.now.direct ≡ 12 }
    ensures { IsCutInode inode.now result count size }
{
    let mut direct = inode.direct;
    for k in count..DIRECT {
        direct[k as usize] = 0;
    }
    let indirect = if count > DIRECT { inode.indirect } else { 0 };
    Inode {
        kind: inode.kind,
        links: inode.links,
        size,
        direct,
        indirect,
    }
}

impl<'a> Working<'a> {
    /// Frees a block: clears its bit, and marks its page as free.
    fn release_one(&mut self, alloc: Global, b: BlockNo) -> Result<(), OutOfMemory>
        requires { IsReleasable self.old.geometry (pages_of self.old) b }
        ensures { OnOk result (Releases self.old self.new (b ∷ [])) }
    {
        self.mark_block(alloc, b, false)?;
        self.put_free(b)
    }

    /// Frees blocks.
    fn release(&mut self, alloc: Global, blocks: &[BlockNo]) -> Result<(), OutOfMemory>
        requires { All (IsReleasable self.old.geometry (pages_of self.old)) blocks.now }
        ensures { OnOk result (Releases self.old self.new blocks.now) }
    {
        for b in blocks {
            self.release_one(alloc, *b)?;
        }
        Ok(())
    }

    /// Frees the blocks of an inode from this one on, and that of its pointers if it is no longer needed.
    fn release_from(&mut self, alloc: Global, o: &Opened, count: u32) -> Result<(), OutOfMemory>
        requires few { count ≤ length o.now.blocks.items }
        requires blocks { All (IsReleasable self.old.geometry (pages_of self.old))
            (drop count o.now.blocks.items) }
        requires pointers { count ≤ 12
            → 12 < length o.now.blocks.items
            → IsReleasable self.old.geometry (pages_of self.old) o.now.inode.indirect }
        ensures { OnOk result (Releases self.old self.new (gone_from o.now count)) }
    {
        self.release(alloc, &o.blocks[count as usize..])?;
        if count <= DIRECT && o.blocks.len() > DIRECT as usize {
            self.release_one(alloc, BlockNo(o.inode.indirect))?;
        }
        Ok(())
    }

    /// Clears the pointers after the first `count` blocks, if there are more than twelve. If the file had
    /// no more blocks than that, the page stays as it was.
    fn cut_pointers(
        &mut self,
        alloc: Global,
        p: BlockNo,
        have: usize,
        count: u32,
    ) -> Result<(), OutOfMemory>
        requires { 12 < count → count < have → IsHeld (pages_of self.old) p }
        ensures { OnOk result (CutsPointers self.old self.new p have count) }
    {
        if count <= DIRECT || have <= count as usize {
            return Ok(());
        }
        let mut pointers = self.lift(alloc, p)?;
        clear_pointers(&mut pointers, count - DIRECT);
        self.put(p, Kind::Meta, pointers)
    }

    /// Frees an inode with all its blocks.
    pub fn free_inode_of(&mut self, alloc: Global, o: &Opened) -> Result<(), OutOfMemory>
        requires possible { (v : Volume)
            × Carries self.old.geometry (pages_of self.old) v
            × IsOpened self.old.geometry v o.now }
        requires table { IsHeld (pages_of self.old) (inode_block_of self.old.geometry o.now.number) }
        requires marks { IsHeld (pages_of self.old) (inode_bitmap_of self.old.geometry) }
        requires blocks { All (IsReleasable self.old.geometry (pages_of self.old)) o.now.blocks.items }
        requires pointers { 12 < length o.now.blocks.items
            → IsReleasable self.old.geometry (pages_of self.old) o.now.inode.indirect }
        ensures over { OnOk result (IsOver self.old self.new) }
        ensures freed { OnOk result ((v : Volume)
            → Carries self.old.geometry (pages_of self.old) v
            → IsOpened self.old.geometry v o.now
            → Becomes self.old.geometry v (freed v o.now.number) self.old self.new) }
    {
        self.release_from(alloc, o, 0)?;
        self.mark_inode(alloc, o.number, false)?;
        self.put_inode(alloc, o.number, &FREE)
    }

    /// Cuts a file to its first `count` blocks, and to this size.
    pub fn cut(
        &mut self,
        alloc: Global,
        o: &Opened,
        count: u32,
        size: u64,
    ) -> Result<(), OutOfMemory>
        requires possible { (v : Volume)
            × (bytes now : List ℕ)
            × Carries self.old.geometry (pages_of self.old) v
            × MayCut self.old.geometry v o.now count bytes now
            × (length now ≡ size) }
        requires table { IsHeld (pages_of self.old) (inode_block_of self.old.geometry o.now.number) }
        requires blocks { All (IsReleasable self.old.geometry (pages_of self.old))
            (drop count o.now.blocks.items) }
        requires pointers { HoldsPointers (pages_of self.old) o.now }
        requires release { count ≤ 12
            → 12 < length o.now.blocks.items
            → IsReleasable self.old.geometry (pages_of self.old) o.now.inode.indirect }
        ensures over { OnOk result (IsOver self.old self.new) }
        ensures cut { OnOk result ((v : Volume) (bytes now : List ℕ)
            → Carries self.old.geometry (pages_of self.old) v
            → MayCut self.old.geometry v o.now count bytes now
            → length now ≡ size
            → Becomes self.old.geometry v (cut_file v o.now.number count now) self.old self.new) }
    {
        self.release_from(alloc, o, count)?;
        let have = o.blocks.len();
        self.cut_pointers(alloc, BlockNo(o.inode.indirect), have, count)?;
        self.put_inode(alloc, o.number, &cut_inode(&o.inode, count, size))
    }
}
