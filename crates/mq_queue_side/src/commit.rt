// A transaction's writes: prepared, and then numbered.
ghost use Rattle.std.specs.Prelude.{◌≡◌, ◌<◌, ◌≤◌, ◌+◌, ◌++◌, ◌∷◌, ◌^◌, ℕ, true, [], length, reverse, vec_len, vec_capacity, IfOk};
ghost use Rattle.mq_blocks.specs.Copies.{copies_at, directs_of};
ghost use Rattle.mq_blocks.specs.Descriptor.{Descriptor as Text, further, further_block, journal_form, last_block};
ghost use Rattle.mq_blocks.specs.Limits.{list_limit, newest_version};
ghost use Rattle.mq_blocks.specs.Geometry.{queues_of, homes_of};
ghost use Rattle.mq_blocks.specs.Journal.{is_among};
ghost use Rattle.mq_ledger.specs.History.{blocks_of};
ghost use Rattle.mq_queue_side.specs.Commits.{items_of, further_of, descriptor_at, numbered_with};
ghost use Rattle.mq_queue_side.specs.Parts.{HasFurther, bytes_in, count_of, writes_of};
ghost use Rattle.mq_queue_side.specs.Sent.{AreInZone};

use mq_area::{Descriptor, write_descriptor, write_one_block};
use mq_blocks::{Block, BlockNo, Geometry, Lba, QueueNo, TxNo, further_blocks};
use mq_pages::ShadowPage;
use std::marker::Model;

/// A transaction that is ready to be drawn: shadows of its writes, and all the memory that its commit
/// needs.
#[derive(Drop)]
pub struct Prepared {
    // what goes into the journal area, and what goes home
    pub(crate) logged: Vec<ShadowPage>,
    pub(crate) direct: Vec<ShadowPage>,
    // the lists of the descriptor, and the blocks in which it will be written
    pub(crate) blocks: Vec<BlockNo>,
    pub(crate) revoked: Vec<BlockNo>,
    pub(crate) block: Block,
    pub(crate) further: Option<Block>,
    // room for the items of the ring
    pub(crate) items: Vec<(Lba, Block)>,
}

impl Model for Prepared {
    ghost use Rattle.std.specs.Prelude.{vec_capacity};
    ghost use Rattle.mq_queue_side.specs.Commits.{Commit};
    ghost use Rattle.mq_queue_side.specs.Parts.{commit_with, writes_of, ArePartsOf};

    ghost Value = { Commit };

    ghost view = { λ p. commit_with p.logged.items p.direct.items p.revoked.items };

    ghost invariant = { λ p. ArePartsOf (writes_of p.logged.items) (writes_of p.direct.items)
        p.blocks.items p.revoked.items p.further p.items.items (vec_capacity p.items) };
}

/// A transaction that was drawn: its writes, its number and its place on its queue. Its descriptor is
/// written.
#[derive(Drop)]
pub struct Numbered {
    logged: Vec<ShadowPage>,
    direct: Vec<ShadowPage>,
    number: TxNo,
    at: Position,
    // the descriptor, and the blocks in which it is written
    descriptor: Descriptor,
    block: Block,
    further: Option<Block>,
    items: Vec<(Lba, Block)>,
}

impl Model for Numbered {
    ghost use Rattle.std.specs.Prelude.{vec_capacity};
    ghost use Rattle.mq_queue_side.specs.Commits.{NumberedCommit};
    ghost use Rattle.mq_queue_side.specs.Parts.{bytes_in, commit_with, numbered_by, AreNumberedParts};

    ghost Value = { NumberedCommit };

    ghost view = { λ n. numbered_by (commit_with n.logged.items n.direct.items n.descriptor.revoked)
        n.number n.at n.block (bytes_in n.further) };

    ghost invariant = { λ n. AreNumberedParts
        (numbered_by (commit_with n.logged.items n.direct.items n.descriptor.revoked)
        n.number n.at n.block (bytes_in n.further))
        n.further n.items.items (vec_capacity n.items) };
}

/// Where a transaction stands on its queue: the place of its first copy, and number and place of the
/// descriptor before its own.
#[derive(Clone, Copy)]
pub(crate) struct Position {
    pub(crate) queue: QueueNo,
    pub(crate) first: u64,
    pub(crate) prev_place: u64,
    pub(crate) prev_number: TxNo,
}

impl Prepared {
    // The number of blocks that go into the journal area.
    pub(crate) fn copies(&self) -> u64
        ensures { result ≡ length self.now.logged }
    {
        self.logged.len() as u64
    }

    // The number of further blocks of its descriptor.
    pub(crate) fn further(&self) -> u64
        ensures is { result ≡ further_of self.now }
        ensures few { result ≤ 1 }
    {
        further_blocks(self.logged.len() as u64 + self.revoked.len() as u64)
    }

    // Gives it a number and a place, and writes the descriptor.
    pub(crate) fn number(self, tx: TxNo, at: Position) -> Numbered
        requires { at.first + (length self.logged + further_of self) < 2 ^ 64 }
        ensures { result ≡ numbered_with journal_form self at.queue tx at.first
            at.prev_place at.prev_number }
    {
        let descriptor = Descriptor {
            queue: at.queue.0,
            number: tx.0,
            place: at.first + (self.logged.len() as u64 + self.further()),
            prev_place: at.prev_place,
            prev_number: at.prev_number.0,
            logged: self.blocks,
            revoked: self.revoked,
        };
        let mut block = self.block;
        let further = write_blocks(&descriptor, &mut block, self.further);
        Numbered {
            logged: self.logged,
            direct: self.direct,
            number: tx,
            at,
            descriptor,
            block,
            further,
            items: self.items,
        }
    }
}

// Writes a descriptor into its blocks, and gives the further one back.
fn write_blocks(d: &Descriptor, block: &mut Block, before: Option<Block>) -> Option<Block>
    requires counts { length d.now.logged + length d.now.revoked ≤ list_limit }
    requires before { HasFurther (length d.now.logged + length d.now.revoked) before }
    ensures last { block.new ≡ last_block journal_form newest_version d.now }
    ensures rest { further d.now ≡ 1 → bytes_in result ≡ further_block journal_form newest_version d.now }
    ensures has { HasFurther (length d.now.logged + length d.now.revoked) result }
{
    match before {
        Some(mut further) => {
            write_descriptor(d, block, &mut further);
            Some(further)
        }
        None => {
            write_one_block(d, block);
            None
        }
    }
}

// Adds an item where there is room.
fn add(items: &mut Vec<(Lba, Block)>, lba: Lba, block: Block)
    requires { vec_len items.old < vec_capacity items.old }
    ensures items { items.new.items ≡ items.old.items ++ (lba, block) ∷ [] }
    ensures capacity { vec_capacity items.old ≤ vec_capacity items.new }
{
    match items.push((lba, block)) {
        Ok(()) => {}
        Err(_) => unreachable!(),
    }
}

// Takes the first page out of pages that stand in reverse.
pub(crate) fn take_first(reversed: &mut Vec<ShadowPage>) -> ShadowPage
    requires { 0 < length reversed.old.items }
    ensures { reverse reversed.old.items ≡ result ∷ reverse reversed.new.items }
{
    match reversed.pop() {
        Some(page) => page,
        None => unreachable!(),
    }
}

// Adds the copies of the logged pages, from a place of the queue on.
fn add_copies(
    items: &mut Vec<(Lba, Block)>,
    geometry: Geometry,
    queue: QueueNo,
    first: u64,
    mut pages: Vec<ShadowPage>,
)
    requires queue { queue < queues_of geometry }
    requires room { length items.old.items + length pages.items ≤ vec_capacity items.old }
    requires places { first + length pages.items < 2 ^ 64 }
    ensures items { items.new.items ≡ items.old.items ++ copies_at geometry queue first (writes_of pages.items) }
    ensures capacity { vec_capacity items.old ≤ vec_capacity items.new }
{
    let mut place = first;
    pages.reverse();
    'copying: while !pages.is_empty() {
        let page = take_first(&mut pages);
        add(items, geometry.area_lba(queue, place), page.content);
        place += 1;
    }
}

// Adds the direct pages, each to its home block.
fn add_directs(items: &mut Vec<(Lba, Block)>, geometry: Geometry, mut pages: Vec<ShadowPage>)
    requires room { length items.old.items + length pages.items ≤ vec_capacity items.old }
    requires home { (x : ℕ) → is_among x (blocks_of (writes_of pages.items)) ≡ true → x < homes_of geometry }
    ensures items { items.new.items ≡ items.old.items ++ directs_of geometry (writes_of pages.items) }
    ensures capacity { vec_capacity items.old ≤ vec_capacity items.new }
{
    pages.reverse();
    'placing: while !pages.is_empty() {
        let page = take_first(&mut pages);
        add(items, geometry.home(page.block), page.content);
    }
}

// Adds the blocks of a descriptor, from a place of the queue on: the further one, if there is one, and
// then the last.
fn add_descriptor(
    items: &mut Vec<(Lba, Block)>,
    geometry: Geometry,
    queue: QueueNo,
    first: u64,
    further: Option<Block>,
    block: Block,
)
    requires queue { queue < queues_of geometry }
    requires room { length items.old.items + 2 ≤ vec_capacity items.old }
    requires places { first + count_of further < 2 ^ 64 }
    ensures { items.new.items ≡ items.old.items ++ descriptor_at geometry queue first
        (count_of further) (bytes_in further) block }
{
    let Some(further) = further else {
        add(items, geometry.area_lba(queue, first), block);
        return;
    };
    add(items, geometry.area_lba(queue, first), further);
    add(items, geometry.area_lba(queue, first + 1), block);
}

impl Numbered {
    /// The number of the transaction.
    pub fn number(&self) -> TxNo
        ensures { result ≡ self.now.number }
    {
        self.number
    }

    /// The same transaction, with this as the last block of its descriptor: for a form of descriptors
    /// other than the journal's, with which a journal may be written as well.
    pub fn with_last(self, last: Block) -> Numbered
        ensures { result ≡ record self { last = last } }
    {
        Numbered {
            block: last,
            ..self
        }
    }

    // What goes into the ring, in its order.
    pub(crate) fn into_items(self, geometry: Geometry) -> Vec<(Lba, Block)>
        requires queue { self.queue < queues_of geometry }
        requires direct { AreInZone geometry self.queue self.commit.direct }
        ensures { result.items ≡ items_of geometry self }
    {
        let Numbered {
            logged,
            direct,
            number: _,
            at,
            descriptor: _,
            block,
            further,
            mut items,
        } = self;
        let copies = logged.len() as u64;
        add_copies(&mut items, geometry, at.queue, at.first, logged);
        add_directs(&mut items, geometry, direct);
        add_descriptor(
            &mut items,
            geometry,
            at.queue,
            at.first + copies,
            further,
            block,
        );
        items
    }
}
