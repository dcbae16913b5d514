// The form of a transaction.
ghost use Rattle.std.specs.Prelude.{◌≡◌, ◌≤◌, ◌<◌, ◌++◌, ◌↔◌, ℕ, map, true, All, IsTrue, Some, length};
ghost use Rattle.mq_blocks.specs.Descriptor.{AreRising, AreApart};
ghost use Rattle.mq_blocks.specs.Geometry.{homes_of, zone_of};
ghost use Rattle.mq_blocks.specs.Journal.{is_among};
ghost use Rattle.mq_ledger.specs.Form.{IsAscending, HasLists, FitsTogether};
ghost use Rattle.mq_ledger.specs.History.{blocks_of};
ghost use Rattle.mq_ledger.specs.KnownJournal.{IsTx};
ghost use Rattle.mq_ledger.specs.Records.{Every};

use crate::{Content, Tx};
use mq_blocks::{BlockNo, Geometry, QueueNo};

/// An item of a list that names a block.
trait OfBlock {
    ghost block_of: { Self → ℕ };

    fn block(&self) -> BlockNo
        ensures { result ≡ block_of self.now };
}

impl OfBlock for BlockNo {
    ghost block_of = { λ b. b };

    fn block(&self) -> BlockNo {
        *self
    }
}

impl OfBlock for (BlockNo, Content) {
    ghost block_of = { λ w. w.0 };

    fn block(&self) -> BlockNo {
        self.0
    }
}

/// Whether the blocks of a list rise, and are below a limit.
fn is_rising<T: OfBlock>(list: &[T], high: u32) -> bool
    ensures { IsTrue result ↔ AreRising 0 high (map T.block_of list.now) }
{
    let mut low = 0;
    for item in list {
        let block = item.block();
        if block.0 < low || block.0 >= high {
            return false;
        }
        low = block.0 + 1;
    }
    true
}

/// Whether a block is in a list, whose blocks rise.
fn has_block<T: OfBlock>(list: &[T], block: BlockNo) -> bool
    requires { IsAscending (map T.block_of list.now) }
    ensures { IsTrue result ↔ (is_among block (map T.block_of list.now) ≡ true) }
{
    list.binary_search_by_key(&block.0, |item| item.block().0)
        .is_ok()
}

/// Whether a block is among rising ones.
pub fn is_listed(blocks: &[BlockNo], block: BlockNo) -> bool
    requires { IsAscending blocks.now }
    ensures { IsTrue result ↔ (is_among block blocks.now ≡ true) }
{
    has_block(blocks, block)
}

/// Whether one of these writes is of a block. Their blocks rise.
fn is_written(writes: &[(BlockNo, Content)], block: BlockNo) -> bool
    requires { IsAscending (blocks_of writes.now) }
    ensures { IsTrue result ↔ (is_among block (blocks_of writes.now) ≡ true) }
{
    has_block(writes, block)
}

fn are_whole(writes: &[(BlockNo, Content)]) -> bool
    ensures { IsTrue result ↔ All (λ w. length w.1 ≡ 4096) writes.now }
{
    for write in writes {
        let content = &write.1;
        if content.0.len() != 4096 {
            return false;
        }
    }
    true
}

/// Whether no two of these writes, one of each list, are of the same block.
fn are_apart(writes: &[(BlockNo, Content)], others: &[(BlockNo, Content)]) -> bool
    requires { IsAscending (blocks_of others.now) }
    ensures { IsTrue result ↔ AreApart (blocks_of writes.now) (blocks_of others.now) }
{
    for write in writes {
        if is_written(others, write.0) {
            return false;
        }
    }
    true
}

/// Whether a transaction writes none of these blocks.
fn are_kept(blocks: &[BlockNo], tx: &Tx) -> bool
    requires logged { IsAscending (blocks_of tx.now.logged) }
    requires direct { IsAscending (blocks_of tx.now.direct) }
    ensures { IsTrue result ↔ AreApart blocks.now (blocks_of (tx.now.logged ++ tx.now.direct)) }
{
    let logged = tx.logged.as_slice();
    let direct = tx.direct.as_slice();
    for block in blocks {
        if is_written(logged, *block) {
            return false;
        }
        if is_written(direct, *block) {
            return false;
        }
    }
    true
}

fn is_in_zone(geometry: Geometry, block: BlockNo, queue: QueueNo) -> bool
    requires { block < homes_of geometry }
    ensures { IsTrue result ↔ (zone_of geometry block ≡ Some queue) }
{
    match geometry.zone_of(block) {
        Some(zone) => zone.0 == queue.0,
        None => false,
    }
}

/// Whether these writes are in the zone of a queue.
fn are_zoned(geometry: Geometry, writes: &[(BlockNo, Content)], queue: QueueNo) -> bool
    requires { AreRising 0 (homes_of geometry) (blocks_of writes.now) }
    ensures { IsTrue result ↔ Every (λ x. zone_of geometry x ≡ Some queue) (blocks_of writes.now) }
{
    for write in writes {
        if !is_in_zone(geometry, write.0, queue) {
            return false;
        }
    }
    true
}

/// Whether each of these blocks is written.
fn are_written(blocks: &[BlockNo], writes: &[(BlockNo, Content)]) -> bool
    requires { IsAscending (blocks_of writes.now) }
    ensures { IsTrue result ↔ Every (λ x. is_among x (blocks_of writes.now) ≡ true) blocks.now }
{
    for block in blocks {
        if !is_written(writes, *block) {
            return false;
        }
    }
    true
}

fn has_lists(geometry: Geometry, tx: &Tx) -> bool
    ensures { IsTrue result ↔ HasLists geometry tx.now }
{
    let homes = geometry.homes();
    let most = geometry.write_limit() as usize;
    let logged = tx.logged.as_slice();
    let direct = tx.direct.as_slice();
    let revoked = tx.revoked.as_slice();
    let freed = tx.freed.as_slice();
    tx.queue.0 < geometry.queues()
        && logged.len() <= most
        && direct.len() <= most - logged.len()
        && is_rising(logged, homes)
        && is_rising(direct, homes)
        && is_rising(revoked, homes)
        && is_rising(freed, homes)
}

fn fits_together(geometry: Geometry, tx: &Tx) -> bool
    requires { HasLists geometry tx.now }
    ensures { IsTrue result ↔ FitsTogether geometry tx.now }
{
    let logged = tx.logged.as_slice();
    let direct = tx.direct.as_slice();
    let revoked = tx.revoked.as_slice();
    let freed = tx.freed.as_slice();
    are_whole(logged)
        && are_whole(direct)
        && are_apart(logged, direct)
        && are_kept(freed, tx)
        && are_zoned(geometry, direct, tx.queue)
        && are_written(revoked, direct)
}

/// Whether a transaction meets the conditions that need no history.
pub fn is_transaction(geometry: Geometry, tx: &Tx) -> bool
    ensures { IsTrue result ↔ IsTx geometry tx.now }
{
    has_lists(geometry, tx) && fits_together(geometry, tx)
}
