// A port of the machine: ring, doorbell, heads, and blocks.
ghost use Rattle.std.specs.Prelude.{◌≡◌, nat_eq, ◌↔◌, IsTrue, ◌<◌, ◌≤◌, ◌+◌, ◌%◌, ◌^◌, ◌++◌, ◌-◌, ◌∷◌, [], ℕ, length, slice_index_or, slice_set};
ghost use Rattle.mq_blocks.specs.Limits.{depth, usable_depth};
ghost use Rattle.std.specs.Prelude.{replicate, Some, None, true, false, IfSome, IfNone, IfOk, OnOk, OnErr};
ghost use Rattle.std.specs.List.{remove};
ghost use Rattle.std.specs.Bool.{OnTrue, OnFalse};
ghost use Rattle.mq_blocks.specs.Drive.{PortState, AreFrom, counted, staged_end, after_stage, after_flush, after_ring, after_begin, after_write};
ghost use Rattle.mq_blocks.specs.Drive.{after_end, without_last, after_store_head, after_store_base, index_of};
ghost use Rattle.mq_blocks.specs.Blocks.{zeros, content};
ghost use Rattle.mq_ledger.specs.Sides.{holds_count};
ghost use Rattle.mq_core.specs.Bases.{Holds};
ghost use Rattle.mq_core.specs.Answers.{Answers, IsStagedTo, IsFlushedTo, IsCompletedTo};
ghost use Rattle.mq_core.specs.Events.{MayEnd, index_with, command_with, complete_side, fail_side};
ghost use Rattle.mq_core.specs.Within.{IsWithin};
ghost use Rattle.mq_blocks.specs.Geometry.{queues_of};
ghost use Rattle.mq_core.specs.Start.{port_over};

use crate::CoreRefusal;
use mq_blocks::{Geometry, Lba, OutOfMemory, QueueNo, RING_DEPTH, TxNo, USABLE_DEPTH};
use mq_ledger::{Content, PlainEntry};
use std::alloc::Global;
use std::marker::Model;

/// A write command of a queue.
#[derive(Drop)]
pub struct PlainCommand {
    pub count: u64,
    pub tx: u64,
    pub lba: Lba,
    pub block: Content,
}

impl Model for PlainCommand {
    ghost use Rattle.mq_blocks.specs.declared.command.Command.{Command as Text};

    ghost Value = { Text };

    ghost view = { λ c. record { count = c.count; tx = c.tx; lba = c.lba; block = c.block } };
}

/// A home write that has begun.
#[derive(Drop)]
pub struct PlainHomeWrite {
    pub lba: Lba,
    pub block: Content,
}

impl Model for PlainHomeWrite {
    ghost use Rattle.mq_blocks.specs.declared.command.HomeWrite.{HomeWrite as Text};

    ghost Value = { Text };

    ghost view = { λ w. record { lba = w.lba; block = w.block } };
}

/// A queue's port, or the root's.
#[derive(Drop)]
pub struct PlainPort {
    queue: Option<QueueNo>,
    area_first: u32,
    area_size: u32,
    homes_first: u32,
    homes_size: u32,
    flushed: Vec<PlainEntry>,
    staged: Vec<PlainEntry>,
    flushed_end: u64,
    pending: Vec<PlainCommand>,
    doorbell: u64,
    posted: Vec<PlainCommand>,
    failed: Vec<PlainCommand>,
    head: u64,
    stored_head: u64,
    base: u64,
    stored_base: u64,
    blocks: Vec<Option<Content>>,
    certain: Vec<bool>,
    begun: Vec<PlainHomeWrite>,
    rings: u64,
    begins: u64,
    events: u64,
}

impl Model for PlainPort {
    ghost use Rattle.std.specs.Prelude.{None};
    ghost use Rattle.mq_blocks.specs.Drive.{PortState, no_fuse};

    ghost Value = { PortState };

    ghost view = { λ p. record {
      queue = p.queue;
      area_first = p.area_first;
      area_size = p.area_size;
      homes_first = p.homes_first;
      homes_size = p.homes_size;
      flushed = p.flushed.items;
      staged = p.staged.items;
      flushed_end = p.flushed_end;
      pending = p.pending.items;
      doorbell = p.doorbell;
      posted = p.posted.items;
      failed = p.failed.items;
      head = p.head;
      stored_head = p.stored_head;
      base = p.base;
      stored_base = p.stored_base;
      blocks = p.blocks.items;
      certain = p.certain.items;
      begun = p.begun.items;
      rings = p.rings;
      begins = p.begins;
      events = p.events;
      fuse = no_fuse;
      fail = None;
    } };
}

/// Whether these are the 4,096 zeros of a block that was never written.
pub fn are_zeros(bytes: &[u8]) -> bool
    ensures { IsTrue result ↔ (bytes.now ≡ zeros) }
{
    if bytes.len() != 4096 {
        return false;
    }
    for byte in bytes {
        if *byte != 0 {
            return false;
        }
    }
    true
}

/// Whether two blocks have the same bytes.
pub fn same_bytes(one: &Content, other: &Content) -> bool
    ensures { IsTrue result ↔ (one.now ≡ other.now) }
{
    one.0 == other.0
}

/// Whether a stored block reads as this one. One that was never written reads as zeros.
pub fn same_content(stored: &Option<Content>, block: &Content) -> bool
    ensures { IsTrue result ↔ (content stored.now ≡ block.now) }
{
    match stored {
        Some(kept) => same_bytes(kept, block),
        None => are_zeros(&block.0),
    }
}

/// The number plus 1, but at most 2^64 - 1.
pub fn bump(n: u64) -> u64
    ensures { result ≡ counted n 1 }
{
    n.saturating_add(1)
}

pub fn put_entry(slots: &mut Vec<PlainEntry>, at: usize, entry: PlainEntry)
    requires { at < length slots.old.items }
    ensures { slots.new.items ≡ slice_set slots.old.items at entry }
{
    slots[at] = entry;
}

pub fn put_block(blocks: &mut Vec<Option<Content>>, at: usize, block: Content)
    requires { at < length blocks.old.items }
    ensures { blocks.new.items ≡ slice_set blocks.old.items at (Some block) }
{
    blocks[at] = Some(block);
}

pub fn put_flag(flags: &mut Vec<bool>, at: usize, flag: bool)
    requires { at < length flags.old.items }
    ensures { flags.new.items ≡ slice_set flags.old.items at flag }
{
    flags[at] = flag;
}

/// Where the command of a count stands in a list.
pub fn find_count(commands: &[PlainCommand], count: u64) -> Option<usize>
    ensures some { IfSome result (λ at. (holds_count count commands.now ≡ true)
        × (index_with count commands.now ≡ at)
        × (at < length commands.now)) }
    ensures none { IfNone result (holds_count count commands.now ≡ false) }
{
    let mut at = 0;
    for command in commands {
        if command.count == count {
            return Some(at);
        }
        at += 1;
    }
    None
}

/// Whether no command stands below a count.
pub fn are_from(commands: &[PlainCommand], low: u64) -> bool
    ensures { IsTrue result ↔ AreFrom low commands.now }
{
    for command in commands {
        if command.count < low {
            return false;
        }
    }
    true
}

/// Removes the command of a count, and returns it if there is one.
pub fn take_count(commands: &mut Vec<PlainCommand>, count: u64) -> Option<PlainCommand>
    ensures some { IfSome result (λ c. (holds_count count commands.old.items ≡ true)
        × (command_with count commands.old.items ≡ c)
        × (commands.new.items ≡ remove commands.old.items (index_with count commands.old.items))) }
    ensures none { IfNone result ((holds_count count commands.old.items ≡ false)
        × (commands.new.items ≡ commands.old.items)) }
{
    let at = find_count(commands, count)?;
    Some(commands.remove(at))
}

/// Whether a home write writes this block.
pub fn writes(write: &PlainHomeWrite, lba: Lba) -> bool
    ensures { result ≡ nat_eq write.now.lba lba }
{
    write.lba.0 == lba.0
}

/// Where the last home write of a block stands.
pub fn last_write(begun: &[PlainHomeWrite], lba: Lba) -> Option<usize>
    ensures some { IfSome result (λ at. (at < length begun.now)
        × (remove begun.now at ≡ without_last lba begun.now)) }
    ensures none { IfNone result (begun.now ≡ without_last lba begun.now) }
{
    for at in (0..begun.len()).rev() {
        if writes(&begun[at], lba) {
            return Some(at);
        }
    }
    None
}

/// Removes the last home write of a block, if there is one.
pub fn drop_last(begun: &mut Vec<PlainHomeWrite>, lba: Lba)
    ensures { begun.new.items ≡ without_last lba begun.old.items }
{
    if let Some(at) = last_write(begun, lba) {
        begun.remove(at);
    }
}

/// `empty` blocks that were never written, and then these.
pub fn behind_empty(
    alloc: Global,
    empty: usize,
    mut homes: Vec<Option<Content>>,
) -> Result<Vec<Option<Content>>, OutOfMemory>
    ensures { IfOk result (λ v. v.items ≡ replicate empty None ++ homes.items) }
{
    let mut blocks = Vec::new(alloc);
    for _ in 0..empty {
        blocks.push(None)?;
    }
    blocks.append(&mut homes)?;
    Ok(blocks)
}

impl PlainPort {
    /// A port where nothing has happened yet: that of a queue, or the root's if no queue is named. It
    /// has these home blocks, of which `None` is a block of zeros.
    pub fn fresh(
        alloc: Global,
        geometry: Geometry,
        queue: Option<QueueNo>,
        homes: Vec<Option<Content>>,
        base: TxNo,
    ) -> Result<PlainPort, OutOfMemory>
        requires own { IfSome queue (λ q. q < queues_of geometry) }
        ensures { IfOk result (λ p. p ≡ port_over geometry queue homes.items base) }
    {
        let blank = PlainEntry {
            number: 0,
            lba: 0,
            commit: false,
        };
        let areas = geometry.queues() * geometry.area();
        let (slots, area_first, area_size, homes_first, homes_size) = match queue {
            Some(q) => (
                RING_DEPTH as usize,
                q.0 * geometry.area(),
                geometry.area(),
                areas + (geometry.meta() + q.0 * geometry.zone()),
                geometry.zone(),
            ),
            None => (0, 0, 0, areas, geometry.meta()),
        };
        Ok(PlainPort {
            queue,
            area_first,
            area_size,
            homes_first,
            homes_size,
            flushed: vec![in alloc; blank; slots]?,
            staged: vec![in alloc; blank; slots]?,
            flushed_end: 0,
            pending: Vec::new(alloc),
            doorbell: 0,
            posted: Vec::new(alloc),
            failed: Vec::new(alloc),
            head: 0,
            stored_head: 0,
            base: base.0,
            stored_base: base.0,
            blocks: behind_empty(alloc, area_size as usize, homes)?,
            certain: vec![in alloc; true; (area_size + homes_size) as usize]?,
            begun: Vec::new(alloc),
            rings: 0,
            begins: 0,
            events: 0,
        })
    }

    /// Where a block stands among the port's.
    fn index(&self, lba: Lba) -> usize
        requires { IsWithin self.now lba }
        ensures { result ≡ index_of self.now lba }
    {
        if lba.0 < self.homes_first {
            return (lba.0 - self.area_first) as usize;
        }
        (self.area_size + (lba.0 - self.homes_first)) as usize
    }

    /// Writes a block, which then holds this content with certainty.
    fn write(&mut self, lba: Lba, block: Content)
        requires { IsWithin self.old lba }
        ensures { self.new ≡ after_write self.old lba block }
    {
        let at = self.index(lba);
        put_block(&mut self.blocks, at, block);
        put_flag(&mut self.certain, at, true);
    }

    /// Ends the posted command of a count with success.
    pub fn complete(&mut self, count: u64) -> Result<(), CoreRefusal>
        requires { MayEnd count self.old → IsWithin self.old (command_with count self.old.posted).lba }
        ensures { Answers (MayEnd count self.old) (complete_side count self.old) self.old self.new result }
    {
        let Some(command) = take_count(&mut self.posted, count) else {
            return Err(CoreRefusal::NotAllowed { index: 0 });
        };
        self.write(command.lba, command.block);
        self.events = bump(self.events);
        Ok(())
    }

    /// Ends the posted command of a count with an error.
    pub fn fail(&mut self, count: u64) -> Result<(), CoreRefusal>
        requires { MayEnd count self.old → IsWithin self.old (command_with count self.old.posted).lba }
        ensures { Answers (MayEnd count self.old) (fail_side count self.old) self.old self.new result }
    {
        self.failed.reserve(1)?;
        let Some(command) = take_count(&mut self.posted, count) else {
            return Err(CoreRefusal::NotAllowed { index: 0 });
        };
        let at = self.index(command.lba);
        self.failed.push(command)?;
        put_flag(&mut self.certain, at, false);
        self.events = bump(self.events);
        Ok(())
    }

    /// Begins a home write of this content.
    pub fn begin_home(&mut self, lba: Lba, block: Content) -> Result<(), OutOfMemory>
        requires { IsWithin self.old lba }
        ensures ok { OnOk result (self.new ≡ after_begin self.old lba block) }
        ensures refused { OnErr result (self.new ≡ self.old) }
    {
        let at = self.index(lba);
        self.begun.push(PlainHomeWrite { lba, block })?;
        put_flag(&mut self.certain, at, false);
        self.begins = bump(self.begins);
        Ok(())
    }

    /// Ends the last home write of this block, with this content.
    pub fn end_home(&mut self, lba: Lba, block: Content)
        requires { IsWithin self.old lba }
        ensures { self.new ≡ after_end self.old lba block }
    {
        self.write(lba, block);
        drop_last(&mut self.begun, lba);
    }

    /// The count of the next entry.
    pub fn staged_end(&self) -> u64
        requires { staged_end self.now < 2 ^ 64 }
        ensures { result ≡ staged_end self.now }
    {
        self.doorbell + self.pending.len() as u64
    }

    /// Whether everything that was drawn is rung and no command has failed, where the queue's
    /// transactions end at this count.
    pub fn is_rung_to(&self, end: u64) -> bool
        ensures { IsTrue result ↔ ((self.now.doorbell ≡ end) × (self.now.failed ≡ [])) }
    {
        self.doorbell == end && self.failed.is_empty()
    }

    /// How many more entries the ring can take.
    pub fn room(&self) -> u64
        requires low { self.now.head ≤ staged_end self.now }
        requires high { staged_end self.now ≤ self.now.head + usable_depth }
        requires small { staged_end self.now < 2 ^ 64 }
        ensures { result ≡ usable_depth - (staged_end self.now - self.now.head) }
    {
        u64::from(USABLE_DEPTH) - (self.staged_end() - self.head)
    }

    /// Whether something is drawn that isn't rung, and all of it is staged, where the queue's
    /// transactions end at this count.
    pub fn is_staged_to(&self, end: u64) -> bool
        requires { staged_end self.now < 2 ^ 64 }
        ensures { IsTrue result ↔ IsStagedTo end self.now }
    {
        self.doorbell < end && self.staged_end() == end
    }

    /// Whether `is_staged_to` holds, and what is staged is flushed, too.
    pub fn is_flushed_to(&self, end: u64) -> bool
        requires { staged_end self.now < 2 ^ 64 }
        ensures { IsTrue result ↔ IsFlushedTo end self.now }
    {
        self.is_staged_to(end) && self.flushed_end == end
    }

    /// Whether the head may move up to this count: every command below it is completed with success.
    pub fn is_completed_to(&self, head: u64) -> bool
        ensures { IsTrue result ↔ IsCompletedTo head self.now }
    {
        self.stored_head <= head
            && head <= self.doorbell
            && are_from(&self.posted, head)
            && are_from(&self.failed, head)
    }

    /// Rings, where the queue's transactions end at this count: what was staged is posted.
    pub fn ring(&mut self, end: u64) -> Result<(), CoreRefusal>
        requires { staged_end self.old < 2 ^ 64 }
        ensures { Answers (IsFlushedTo end self.old) (after_ring self.old) self.old self.new result }
    {
        if !self.is_flushed_to(end) {
            return Err(CoreRefusal::NotAllowed { index: 0 });
        }
        self.posted.append(&mut self.pending)?;
        self.doorbell = end;
        self.rings = bump(self.rings);
        self.events = bump(self.events);
        Ok(())
    }

    /// Stages the next entry, which is of this transaction and writes this block.
    pub fn stage(
        &mut self,
        entry: PlainEntry,
        tx: TxNo,
        lba: Lba,
        block: Content,
    ) -> Result<(), OutOfMemory>
        requires ring { length self.old.staged ≡ depth }
        requires room { staged_end self.old < 2 ^ 64 }
        ensures ok { OnOk result (self.new ≡ after_stage self.old entry tx lba block) }
        ensures refused { OnErr result (self.new ≡ self.old) }
    {
        let count = self.doorbell + self.pending.len() as u64;
        let command = PlainCommand {
            count,
            tx: tx.0,
            lba,
            block,
        };
        self.pending.push(command)?;
        put_entry(
            &mut self.staged,
            (count % u64::from(RING_DEPTH)) as usize,
            entry,
        );
        self.events = bump(self.events);
        Ok(())
    }

    /// Makes what is staged and stored certain.
    pub fn flush(&mut self)
        requires ring { length self.old.flushed ≡ length self.old.staged }
        requires room { staged_end self.old < 2 ^ 64 }
        ensures { self.new ≡ after_flush self.old }
    {
        self.flushed.copy_from_slice(&self.staged);
        self.flushed_end = self.doorbell + self.pending.len() as u64;
        self.head = self.stored_head;
        self.base = self.stored_base;
        self.events = bump(self.events);
    }

    /// The head as it was last flushed.
    pub fn head(&self) -> u64
        ensures { result ≡ self.now.head }
    {
        self.head
    }

    /// The head as it was last stored.
    pub fn stored_head(&self) -> u64
        ensures { result ≡ self.now.stored_head }
    {
        self.stored_head
    }

    /// The commands that are posted.
    pub fn posted(&self) -> &[PlainCommand]
        ensures { result.now ≡ self.now.posted }
    {
        &self.posted
    }

    /// Whether this was written last to a block, and the block is certain except for what posted
    /// commands write.
    pub fn holds(&self, lba: Lba, content: &Content) -> bool
        requires { IsWithin self.now lba }
        ensures { IsTrue result ↔ Holds self.now lba content.now }
    {
        let at = self.index(lba);
        if !self.certain[at] {
            return false;
        }
        same_content(&self.blocks[at], content)
    }

    /// The base as it was last flushed.
    pub fn base(&self) -> u64
        ensures { result ≡ self.now.base }
    {
        self.base
    }

    /// The base as it was last stored.
    pub fn stored_base(&self) -> u64
        ensures { result ≡ self.now.stored_base }
    {
        self.stored_base
    }

    pub fn store_head(&mut self, head: u64)
        ensures { self.new ≡ after_store_head self.old head }
    {
        self.stored_head = head;
        self.events = bump(self.events);
    }

    /// Stores the head, if every command below it is completed with success.
    pub fn try_store_head(&mut self, head: u64) -> Result<(), CoreRefusal>
        ensures { Answers (IsCompletedTo head self.old)
            (after_store_head self.old head) self.old self.new result }
    {
        if !self.is_completed_to(head) {
            return Err(CoreRefusal::NotAllowed { index: 0 });
        }
        self.store_head(head);
        Ok(())
    }

    pub fn store_base(&mut self, base: TxNo)
        ensures { self.new ≡ after_store_base self.old base }
    {
        self.stored_base = base.0;
        self.events = bump(self.events);
    }
}
