// Edits of single pages. Each takes the content out, changes it and puts it again.
ghost use Rattle.std.specs.Prelude.{◌≡◌, ◌<◌, ◌≤◌, ◌+◌, ◌*◌, ℕ, length, slice_index, OnOk, Some, None};
ghost use Rattle.mq_blocks.specs.Windows.{written};
ghost use Rattle.mq_inodes.specs.Changes.{IsBlockMarked, IsInodeMarked, IsInodePut, IsPointerPut, IsTakenIn, IsTextPut};
ghost use Rattle.mq_inodes.specs.Edits.{IsKindPut, IsOver, IsZoneKindPut, KeepsKinds};
ghost use Rattle.mq_inodes.specs.Pages.{IsHeld, pages_of};
ghost use Rattle.mq_inodes.specs.Picks.{IsMarkable};
ghost use Rattle.mq_layout.specs.Fields.{zero_bytes};
ghost use Rattle.mq_layout.specs.Inodes.{IsInode};
ghost use Rattle.mq_layout.specs.Names.{IsName};
ghost use Rattle.mq_layout.specs.Places.{inode_bitmap as inode_bitmap_of, inode_block as inode_block_of, inodes_of};
ghost use Rattle.mq_layout.specs.Slots.{slot_bytes};
ghost use Rattle.mq_pages.specs.declared.page.Kind.TheVariants.{Data, Meta};

use crate::working::Working;
use mq_blocks::bytes::put;
use mq_blocks::{Block, BlockNo, OutOfMemory, QueueNo};
use mq_layout::{
    Inode, clear_slot, inode_bitmap, inode_block, inode_place, set_bit, set_pointer, write_inode,
    write_slot, zone_bitmap,
};
use mq_pages::Kind;
use std::alloc::Global;

/// Writes bytes from a place of a page on.
fn write_text(page: &mut [u8], from: usize, text: &[u8])
    requires { from + length text.now ≤ length page.old }
    ensures is { page.new ≡ written page.old from text.now }
    ensures bytes { (k : ℕ) → slice_index page.new k < 256 }
{
    put(page, from, text);
}

impl<'a> Working<'a> {
    /// Sets or clears the bit of a block in the bitmap of its zone.
    pub(crate) fn mark_block(
        &mut self,
        alloc: Global,
        b: BlockNo,
        value: bool,
    ) -> Result<(), OutOfMemory>
        requires { IsMarkable self.old.geometry (pages_of self.old) b }
        ensures over { OnOk result (IsOver self.old self.new) }
        ensures kinds { OnOk result (KeepsKinds self.old self.new) }
        ensures marked { OnOk result (IsBlockMarked self.old.geometry (pages_of self.old)
            (pages_of self.new) b value) }
    {
        let place = b.0 - self.geometry.meta();
        let zone = self.geometry.zone();
        let bitmap = zone_bitmap(self.geometry, QueueNo(place / zone));
        let mut marks = self.lift(alloc, bitmap)?;
        set_bit(&mut marks, place % zone, value);
        self.put(bitmap, Kind::Meta, marks)
    }

    /// Takes a free block: sets its bit, and fills it with zeros.
    pub(crate) fn take(&mut self, alloc: Global, b: BlockNo, kind: Kind) -> Result<(), OutOfMemory>
        requires marks { IsMarkable self.old.geometry (pages_of self.old) b }
        requires free { pages_of self.old b ≡ Some None }
        ensures over { OnOk result (IsOver self.old self.new) }
        ensures kinds { OnOk result (IsZoneKindPut self.old self.new b (Some kind)) }
        ensures taken { OnOk result (IsTakenIn self.old.geometry (pages_of self.old) (pages_of self.new) b) }
    {
        self.mark_block(alloc, b, true)?;
        self.put(b, kind, Block::zeroed(alloc)?)
    }

    /// Sets or clears the bit of an inode.
    pub(crate) fn mark_inode(
        &mut self,
        alloc: Global,
        i: u32,
        value: bool,
    ) -> Result<(), OutOfMemory>
        requires low { i < inodes_of self.old.geometry }
        requires held { IsHeld (pages_of self.old) (inode_bitmap_of self.old.geometry) }
        ensures over { OnOk result (IsOver self.old self.new) }
        ensures kinds { OnOk result (KeepsKinds self.old self.new) }
        ensures marked { OnOk result (IsInodeMarked self.old.geometry (pages_of self.old)
            (pages_of self.new) i value) }
    {
        let bitmap = inode_bitmap(self.geometry);
        let mut marks = self.lift(alloc, bitmap)?;
        set_bit(&mut marks, i, value);
        self.put(bitmap, Kind::Meta, marks)
    }

    /// Writes the fields of an inode.
    pub fn put_inode(&mut self, alloc: Global, i: u32, inode: &Inode) -> Result<(), OutOfMemory>
        requires low { i < inodes_of self.old.geometry }
        requires form { IsInode inode.now }
        requires held { IsHeld (pages_of self.old) (inode_block_of self.old.geometry i) }
        ensures over { OnOk result (IsOver self.old self.new) }
        ensures kinds { OnOk result (KeepsKinds self.old self.new) }
        ensures put { OnOk result (IsInodePut self.old.geometry (pages_of self.old)
            (pages_of self.new) i inode.now) }
    {
        let b = inode_block(self.geometry, i);
        let mut table = self.lift(alloc, b)?;
        write_inode(&mut table, inode_place(i), inode);
        self.put(b, Kind::Meta, table)
    }

    /// Sets a pointer of a block of pointers.
    pub(crate) fn put_pointer(
        &mut self,
        alloc: Global,
        p: BlockNo,
        at: u32,
        b: BlockNo,
    ) -> Result<(), OutOfMemory>
        requires at { at < 1024 }
        requires held { IsHeld (pages_of self.old) p }
        ensures over { OnOk result (IsOver self.old self.new) }
        ensures kinds { OnOk result (IsKindPut self.old self.new p (Some Meta)) }
        ensures put { OnOk result (IsPointerPut (pages_of self.old) (pages_of self.new) p at b) }
    {
        let mut pointers = self.lift(alloc, p)?;
        set_pointer(pointers.bytes_mut(), at, b.0);
        self.put(p, Kind::Meta, pointers)
    }

    /// Writes an entry into a slot of a block.
    pub(crate) fn put_slot(
        &mut self,
        alloc: Global,
        b: BlockNo,
        at: u32,
        inode: u32,
        name: &[u8],
    ) -> Result<(), OutOfMemory>
        requires at { at < 15 }
        requires name { IsName name.now }
        requires held { IsHeld (pages_of self.old) b }
        ensures over { OnOk result (IsOver self.old self.new) }
        ensures kinds { OnOk result (IsKindPut self.old self.new b (Some Meta)) }
        ensures put { OnOk result (IsTextPut (pages_of self.old) (pages_of self.new) b (272 * at)
            (slot_bytes (record { inode = inode; name = name.now }))) }
    {
        let mut slots = self.lift(alloc, b)?;
        write_slot(&mut slots, at, inode, name);
        self.put(b, Kind::Meta, slots)
    }

    /// Clears a slot of a block.
    pub(crate) fn clear_slot(
        &mut self,
        alloc: Global,
        b: BlockNo,
        at: u32,
    ) -> Result<(), OutOfMemory>
        requires at { at < 15 }
        requires held { IsHeld (pages_of self.old) b }
        ensures over { OnOk result (IsOver self.old self.new) }
        ensures kinds { OnOk result (IsKindPut self.old self.new b (Some Meta)) }
        ensures put { OnOk result (IsTextPut (pages_of self.old) (pages_of self.new) b (272 * at)
            (zero_bytes 272)) }
    {
        let mut slots = self.lift(alloc, b)?;
        clear_slot(&mut slots, at);
        self.put(b, Kind::Meta, slots)
    }

    /// Writes bytes into a block of a file.
    pub fn put_bytes(
        &mut self,
        alloc: Global,
        b: BlockNo,
        from: usize,
        text: &[u8],
    ) -> Result<(), OutOfMemory>
        requires inside { from + length text.now ≤ 4096 }
        requires held { IsHeld (pages_of self.old) b }
        ensures over { OnOk result (IsOver self.old self.new) }
        ensures kinds { OnOk result (IsKindPut self.old self.new b (Some Data)) }
        ensures put { OnOk result (IsTextPut (pages_of self.old) (pages_of self.new) b from text.now) }
    {
        let mut page = self.lift(alloc, b)?;
        write_text(page.bytes_mut(), from, text);
        self.put(b, Kind::Data, page)
    }
}
