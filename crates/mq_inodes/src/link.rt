// Names that are added to directories, and that go.
ghost use Rattle.std.specs.Prelude.{◌≡◌, ◌≢◌, ◌≤◌, ℕ, length, None, OnOk};
ghost use Rattle.std.specs.List.{All};
ghost use Rattle.mq_inodes.specs.Dirs.{AreDirsAt, slots_at};
ghost use Rattle.mq_inodes.specs.Edits.{Becomes, Carries, IsOver, KeepsHeld};
ghost use Rattle.mq_inodes.specs.Opened.{HoldsPointers, IsTakeable, MayLink, MayUnlink};
ghost use Rattle.mq_inodes.specs.Pages.{IsHeld, pages_of};
ghost use Rattle.mq_layout.specs.Places.{inode_block as inode_block_of};
ghost use Rattle.mq_tree.specs.Requests.{cleared, linked, unlinked, unused as first_unused};
ghost use Rattle.mq_tree.specs.Volume.{Volume, find as find_name, slot_number};

use crate::opened::Opened;
use crate::slots::{number_in, unused_in};
use crate::working::Working;
use mq_blocks::{Block, BlockNo, OutOfMemory};
use mq_layout::SLOTS_PER_BLOCK;
use std::alloc::Global;

impl<'a> Working<'a> {
    /// The first unused slot, counted over the blocks.
    pub(crate) fn unused(&self, blocks: &[BlockNo]) -> Option<u32>
        requires held { AreDirsAt (pages_of self.now) blocks.now }
        requires few { length blocks.now ≤ 1036 }
        ensures { result ≡ first_unused 0 (slots_at (pages_of self.now) blocks.now) }
    {
        let mut first = 0;
        for b in blocks {
            if let Some(at) = unused_in(self.held(*b)) {
                return Some(first + at);
            }
            first += SLOTS_PER_BLOCK;
        }
        None
    }

    /// The slot of a name.
    pub(crate) fn slot_of(&self, blocks: &[BlockNo], name: &[u8]) -> Option<u32>
        requires held { AreDirsAt (pages_of self.now) blocks.now }
        requires few { length blocks.now ≤ 1036 }
        ensures { result ≡ slot_number 0 name.now (slots_at (pages_of self.now) blocks.now) }
    {
        let mut first = 0;
        for b in blocks {
            if let Some(at) = number_in(self.held(*b), name) {
                return Some(first + at);
            }
            first += SLOTS_PER_BLOCK;
        }
        None
    }

    /// Removes a name from a directory.
    pub fn unlink_name(
        &mut self,
        alloc: Global,
        blocks: &[BlockNo],
        name: &[u8],
    ) -> Result<(), OutOfMemory>
        requires possible { (v : Volume)
            × (d : ℕ)
            × Carries self.old.geometry (pages_of self.old) v
            × MayUnlink self.old.geometry v d blocks.now }
        requires held { AreDirsAt (pages_of self.old) blocks.now }
        requires few { length blocks.now ≤ 1036 }
        requires found { find_name name.now (slots_at (pages_of self.old) blocks.now) ≢ None }
        ensures over { OnOk result (IsOver self.old self.new) }
        ensures unlinked { OnOk result ((v : Volume) (d : ℕ)
            → Carries self.old.geometry (pages_of self.old) v
            → MayUnlink self.old.geometry v d blocks.now
            → Becomes self.old.geometry v (unlinked v d name.now) self.old self.new) }
        ensures keeps { OnOk result (KeepsHeld (pages_of self.old) (pages_of self.new)) }
        ensures dirs { OnOk result (AreDirsAt (pages_of self.new) blocks.now) }
        ensures slots { OnOk result (slots_at (pages_of self.new) blocks.now ≡ cleared name.now
            (slots_at (pages_of self.old) blocks.now)) }
    {
        let Some(slot) = self.slot_of(blocks, name) else {
            unreachable!();
        };
        self.clear_slot(
            alloc,
            blocks[(slot / SLOTS_PER_BLOCK) as usize],
            slot % SLOTS_PER_BLOCK,
        )
    }

    /// Adds a name to a directory: in its first unused slot, or in the first slot of one more block.
    pub fn link_name(
        &mut self,
        alloc: Global,
        o: &mut Opened,
        inode: u32,
        name: &[u8],
        picks: &[BlockNo],
    ) -> Result<(), OutOfMemory>
        requires possible { (q : ℕ)
            × (v : Volume)
            × Carries self.old.geometry (pages_of self.old) v
            × MayLink self.old.geometry q v o.old (record { inode = inode; name = name.now }) picks.now }
        requires held { AreDirsAt (pages_of self.old) o.old.blocks.items }
        requires few { length o.old.blocks.items ≤ 1036 }
        requires picks { All (IsTakeable self.old.geometry (pages_of self.old)) picks.now }
        requires table { IsHeld (pages_of self.old) (inode_block_of self.old.geometry o.old.number) }
        requires pointers { HoldsPointers (pages_of self.old) o.old }
        ensures over { OnOk result (IsOver self.old self.new) }
        ensures linked { OnOk result ((q : ℕ) (v : Volume)
            → Carries self.old.geometry (pages_of self.old) v
            → MayLink self.old.geometry q v o.old (record { inode = inode; name = name.now }) picks.now
            → Becomes self.old.geometry v
            (linked self.old.geometry q v o.old.number
            (record { inode = inode; name = name.now })) self.old self.new) }
    {
        let unused = self.unused(&o.blocks);
        self.link_name_at(alloc, o, inode, name, picks, unused)
    }

    /// Adds a name to a directory: in its first unused slot, which is this one, or in the first slot of one
    /// more block.
    pub fn link_name_at(
        &mut self,
        alloc: Global,
        o: &mut Opened,
        inode: u32,
        name: &[u8],
        picks: &[BlockNo],
        unused: Option<u32>,
    ) -> Result<(), OutOfMemory>
        requires possible { (q : ℕ)
            × (v : Volume)
            × Carries self.old.geometry (pages_of self.old) v
            × MayLink self.old.geometry q v o.old (record { inode = inode; name = name.now }) picks.now }
        requires held { AreDirsAt (pages_of self.old) o.old.blocks.items }
        requires few { length o.old.blocks.items ≤ 1036 }
        requires slot { unused ≡ first_unused 0 (slots_at (pages_of self.old) o.old.blocks.items) }
        requires picks { All (IsTakeable self.old.geometry (pages_of self.old)) picks.now }
        requires table { IsHeld (pages_of self.old) (inode_block_of self.old.geometry o.old.number) }
        requires pointers { HoldsPointers (pages_of self.old) o.old }
        ensures over { OnOk result (IsOver self.old self.new) }
        ensures linked { OnOk result ((q : ℕ) (v : Volume)
            → Carries self.old.geometry (pages_of self.old) v
            → MayLink self.old.geometry q v o.old (record { inode = inode; name = name.now }) picks.now
            → Becomes self.old.geometry v
            (linked self.old.geometry q v o.old.number
            (record { inode = inode; name = name.now })) self.old self.new) }
    {
        if let Some(slot) = unused {
            return self.put_slot(
                alloc,
                o.blocks[(slot / SLOTS_PER_BLOCK) as usize],
                slot % SLOTS_PER_BLOCK,
                inode,
                name,
            );
        }
        self.grow(alloc, o, picks)?;
        let last = o.blocks[o.blocks.len() - 1];
        self.put_slot(alloc, last, 0, inode, name)
    }
}
