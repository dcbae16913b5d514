// Files and directories that get more blocks.
ghost use Rattle.std.specs.Prelude.{◌≡◌, ◌≢◌, ◌<◌, ◌≤◌, ◌^◌, ◌+◌, ℕ, length, OnOk, Some};
ghost use Rattle.std.specs.List.{All};
ghost use Rattle.mq_inodes.specs.Edits.{Carries, IsOver};
ghost use Rattle.mq_inodes.specs.Growing.{HasGot, HoldsIndirect, KeepsOthers, MayGet, kind_in as kind_in_of, longer_inode, with_one};
ghost use Rattle.mq_inodes.specs.Opened.{HasGrown, HoldsPointers, IsTakeable, MayGrow};
ghost use Rattle.mq_inodes.specs.Pages.{IsHeld, pages_of};
ghost use Rattle.mq_layout.specs.Places.{inode_block as inode_block_of};
ghost use Rattle.mq_tree.specs.Free.{with_block, with_pointers};
ghost use Rattle.mq_tree.specs.Volume.{Volume};

use crate::blocks::DIRECT;
use crate::opened::Opened;
use crate::walk::DIRECTORY;
use crate::working::Working;
use mq_blocks::{BlockNo, OutOfMemory};
use mq_layout::Inode;
use mq_pages::Kind;
use std::alloc::Global;

const BLOCK: u64 = 4096;

/// The kind of the blocks of this file or directory.
fn kind_in(inode: &Inode) -> Kind
    ensures { result ≡ kind_in_of inode.now }
{
    if inode.kind == DIRECTORY {
        Kind::Meta
    } else {
        Kind::Data
    }
}

/// Adds a block after the first `count` to the fields of an inode.
fn lengthen(inode: &mut Inode, count: u32, b: BlockNo)
    requires twelve { length inode.old.direct ≡ 12 }
    requires size { inode.old.size + 4096 < 2 ^ 64 }
    ensures { inode.new ≡ longer_inode inode.old count b }
{
    if inode.kind == DIRECTORY {
        inode.size += BLOCK;
    }
    if count < DIRECT {
        inode.direct[count as usize] = b.0;
    }
}

impl<'a> Working<'a> {
    /// Takes a block for the pointers beyond the twelfth.
    fn point(&mut self, alloc: Global, o: &mut Opened, b: BlockNo) -> Result<(), OutOfMemory>
        requires possible { (v : Volume)
            × Carries self.old.geometry (pages_of self.old) v
            × MayGet self.old.geometry v o.old b }
        requires twelve { length o.old.blocks.items ≡ 12 }
        requires none { o.old.inode.indirect ≡ 0 }
        requires pick { IsTakeable self.old.geometry (pages_of self.old) b }
        requires table { IsHeld (pages_of self.old) (inode_block_of self.old.geometry o.old.number) }
        ensures over { OnOk result (IsOver self.old self.new) }
        ensures others { OnOk result (KeepsOthers (pages_of self.old) (pages_of self.new) b) }
        ensures indirect { OnOk result (HoldsIndirect (pages_of self.new) o.new.inode) }
        ensures got { OnOk result ((v : Volume)
            → Carries self.old.geometry (pages_of self.old) v
            → MayGet self.old.geometry v o.old b
            → HasGot self.old.geometry v
            (with_pointers v o.old.number (Some b)) self.old self.new o.old o.new) }
    {
        self.take(alloc, b, Kind::Meta)?;
        o.inode.indirect = b.0;
        self.put_inode(alloc, o.number, &o.inode)
    }

    /// Takes the next block.
    fn append(&mut self, alloc: Global, o: &mut Opened, b: BlockNo) -> Result<(), OutOfMemory>
        requires possible { (v : Volume)
            × Carries self.old.geometry (pages_of self.old) v
            × MayGet self.old.geometry v o.old b }
        requires far { 12 ≤ length o.old.blocks.items → o.old.inode.indirect ≢ 0 }
        requires pick { IsTakeable self.old.geometry (pages_of self.old) b }
        requires table { IsHeld (pages_of self.old) (inode_block_of self.old.geometry o.old.number) }
        requires pointers { HoldsIndirect (pages_of self.old) o.old.inode }
        ensures over { OnOk result (IsOver self.old self.new) }
        ensures others { OnOk result (KeepsOthers (pages_of self.old) (pages_of self.new) b) }
        ensures indirect { OnOk result (HoldsIndirect (pages_of self.new) o.new.inode) }
        ensures got { OnOk result ((v : Volume)
            → Carries self.old.geometry (pages_of self.old) v
            → MayGet self.old.geometry v o.old b
            → HasGot self.old.geometry v
            (with_block v o.old.number (Some b)) self.old self.new o.old o.new) }
    {
        self.take(alloc, b, kind_in(&o.inode))?;
        let count = o.blocks.len() as u32;
        o.blocks.push(b)?;
        lengthen(&mut o.inode, count, b);
        if count < DIRECT {
            return self.put_inode(alloc, o.number, &o.inode);
        }
        self.put_pointer(alloc, BlockNo(o.inode.indirect), count - DIRECT, b)?;
        if o.inode.kind == DIRECTORY {
            return self.put_inode(alloc, o.number, &o.inode);
        }
        Ok(())
    }

    /// Takes a block, for the pointers or for the next part.
    fn add(&mut self, alloc: Global, o: &mut Opened, b: BlockNo) -> Result<(), OutOfMemory>
        requires possible { (v : Volume)
            × Carries self.old.geometry (pages_of self.old) v
            × MayGet self.old.geometry v o.old b }
        requires pick { IsTakeable self.old.geometry (pages_of self.old) b }
        requires table { IsHeld (pages_of self.old) (inode_block_of self.old.geometry o.old.number) }
        requires pointers { HoldsIndirect (pages_of self.old) o.old.inode }
        ensures over { OnOk result (IsOver self.old self.new) }
        ensures others { OnOk result (KeepsOthers (pages_of self.old) (pages_of self.new) b) }
        ensures indirect { OnOk result (HoldsIndirect (pages_of self.new) o.new.inode) }
        ensures got { OnOk result ((v : Volume)
            → Carries self.old.geometry (pages_of self.old) v
            → MayGet self.old.geometry v o.old b
            → HasGot self.old.geometry v (with_one v o.old.number b) self.old self.new o.old o.new) }
    {
        if o.blocks.len() == DIRECT as usize && o.inode.indirect == 0 {
            self.point(alloc, o, b)
        } else {
            self.append(alloc, o, b)
        }
    }

    /// Takes these blocks for an inode, one after another. The one after the twelfth is for its pointers.
    pub fn grow(
        &mut self,
        alloc: Global,
        o: &mut Opened,
        picks: &[BlockNo],
    ) -> Result<(), OutOfMemory>
        requires possible { (q : ℕ)
            × (v : Volume)
            × (count : ℕ)
            × Carries self.old.geometry (pages_of self.old) v
            × MayGrow self.old.geometry q v o.old picks.now count }
        requires picks { All (IsTakeable self.old.geometry (pages_of self.old)) picks.now }
        requires table { IsHeld (pages_of self.old) (inode_block_of self.old.geometry o.old.number) }
        requires pointers { HoldsPointers (pages_of self.old) o.old }
        ensures over { OnOk result (IsOver self.old self.new) }
        ensures grown { OnOk result ((q : ℕ) (v : Volume) (count : ℕ)
            → Carries self.old.geometry (pages_of self.old) v
            → MayGrow self.old.geometry q v o.old picks.now count
            → HasGrown self.old.geometry q v self.old self.new o.old o.new count) }
        ensures held { OnOk result (HoldsPointers (pages_of self.new) o.new) }
    {
        for b in picks {
            self.add(alloc, o, *b)?;
        }
        Ok(())
    }
}
