// The history of a machine, with what its events ask of it at hand.
ghost use Rattle.std.specs.Prelude.{◌≡◌, ◌≤◌, ◌<◌, ◌+◌, ◌^◌, ℕ, List, [], IfOk, OnOk, OnErr, IsTrue, ◌↔◌, MatchOption, length, vec_len, vec_capacity, replicate, None, Some};
ghost use Rattle.mq_blocks.specs.Descriptor.{AreRising};
ghost use Rattle.mq_blocks.specs.Geometry.{homes_of};
ghost use Rattle.mq_blocks.specs.Journal.{number_limit};
ghost use Rattle.mq_ledger.specs.KnownJournal.{KnownJournal, MayDraw};
ghost use Rattle.mq_ledger.specs.Form.{IsAscending};
ghost use Rattle.mq_ledger.specs.History.{blocks_of, writes, last, last_logged, map_after, upto, AreNumbered, IsAt, IsPart};
ghost use Rattle.mq_ledger.specs.Items.{end_of, next, below, IsEnd, item_at, further_blocks, descriptor_blocks};
ghost use Rattle.mq_ledger.specs.Records.{own, from_of, HasPlace, LogsLast, IsClear, IsNextEnd, IsKnown, Every, IsTaken, IsOpen, start_ledger};
ghost use Rattle.mq_ledger.specs.Records.{push_tx, settle_next};
ghost use Rattle.mq_ledger.specs.Staged.{IsStaged};
ghost use Rattle.mq_ledger.specs.State.{start_map};
ghost use Rattle.mq_ledger.specs.Tables.{IsLatest, row_of};
ghost use Rattle.mq_ledger.specs.declared.tx.Tx.{Tx as Record};

use crate::content::copy_blocks;
use crate::form::{is_listed, is_transaction};
use crate::latest::{Latest, Place, find, mark, numbered};
use crate::queue_rows::{QueueEnd, QueueRows, Row, add_row};
use crate::staging::{Staged, stage_entry};
use crate::{Content, Tx};
use mq_blocks::{BlockNo, Geometry, OutOfMemory, QueueNo, TxNo, further_blocks};
use std::alloc::Global;
use std::marker::Model;

/// The number of blocks of the journal area that a transaction's descriptor takes, each with an entry.
pub fn descriptor_blocks(tx: &Tx) -> u64
    ensures { result ≡ descriptor_blocks tx.now }
{
    let listed = tx.logged.as_slice().len() + tx.revoked.as_slice().len();
    further_blocks(listed as u64) + 1
}

/// The greatest number of a transaction.
const LIMIT: u64 = 1 << 63;

/// A history, and the number up to which it is done. Beside the transactions stand the last change of
/// each home block, after all of them and after the done ones, and the counts and places of each queue,
/// so that no query needs a pass over the whole history.
#[derive(Drop)]
pub struct Ledger {
    geometry: Geometry,
    start: Vec<Option<Content>>,
    base: u64,
    starts: Vec<u64>,
    history: Vec<Tx>,
    /// The count after each transaction's entries.
    ends: Vec<u64>,
    front: u64,
    newest: Vec<Latest>,
    settled: Vec<Latest>,
    queue_rows: Vec<QueueRows>,
}

impl Model for Ledger {
    ghost use Rattle.mq_ledger.specs.Records.{Ledger as Text};
    ghost use Rattle.mq_ledger.specs.Tables.{ledger_of, HasTables};

    ghost Value = { Text };

    ghost view = { ledger_of };

    ghost invariant = { HasTables };
}

/// A list that repeats a number.
pub fn repeated(alloc: Global, number: u64, times: usize) -> Result<Vec<u64>, OutOfMemory>
    ensures { IfOk result (λ v. v.items ≡ replicate times number) }
{
    Ok(vec![in alloc; number; times]?)
}

fn empty_queue_rows(alloc: Global, queues: usize) -> Result<Vec<QueueRows>, OutOfMemory>
    ensures { IfOk result (λ v. v.items ≡ replicate queues []) }
{
    let mut queue_rows = Vec::new(alloc);
    for _ in 0..queues {
        queue_rows.push(QueueRows::new(alloc))?;
    }
    Ok(queue_rows)
}

/// The row of a transaction that follows this row.
fn row_after(before: Row, tx: &Tx) -> Row
    requires counts { before.end + (writes tx.now + descriptor_blocks tx.now) ≤ number_limit }
    requires places { before.next + (length tx.now.logged + further_blocks tx.now) < 2 ^ 62 }
    ensures number { result.number ≡ tx.now.number }
    ensures end { result.end ≡ before.end + (writes tx.now + descriptor_blocks tx.now) }
    ensures next_is { result.next ≡ before.next + (length tx.now.logged + descriptor_blocks tx.now) }
{
    let copies = tx.logged.as_slice().len() as u64;
    let direct = tx.direct.as_slice().len() as u64;
    let blocks = descriptor_blocks(tx);
    Row {
        number: tx.number.0,
        end: before.end + (copies + direct + blocks),
        next: before.next + (copies + blocks),
    }
}

/// Room for one more transaction and the count after it.
fn reserve_one(history: &mut Vec<Tx>, ends: &mut Vec<u64>) -> Result<(), OutOfMemory>
    ensures history { history.new.items ≡ history.old.items }
    ensures ends { ends.new.items ≡ ends.old.items }
    ensures room { OnOk result ((vec_len history.new < vec_capacity history.new)
        × (vec_len ends.new < vec_capacity ends.new)) }
{
    history.reserve(1)?;
    ends.reserve(1)?;
    Ok(())
}

impl Ledger {
    /// A history with no transaction, over these home blocks: `None` is a free block.
    pub fn start(
        alloc: Global,
        geometry: Geometry,
        blocks: &[Option<Content>],
        base: TxNo,
    ) -> Result<Ledger, OutOfMemory>
        requires blocks { length blocks.now ≡ homes_of geometry }
        requires base { base ≤ number_limit }
        ensures { IfOk result (λ l. l ≡ start_ledger geometry blocks.now base) }
    {
        let latest = Latest {
            change: base.0,
            logged: base.0,
            place: Place::Start,
        };
        let queues = geometry.queues() as usize;
        let homes = geometry.homes() as usize;
        Ok(Ledger {
            geometry,
            start: copy_blocks(alloc, blocks)?,
            base: base.0,
            starts: repeated(alloc, 0, queues)?,
            history: Vec::new(alloc),
            ends: Vec::new(alloc),
            front: base.0,
            newest: vec![in alloc; latest; homes]?,
            settled: vec![in alloc; latest; homes]?,
            queue_rows: empty_queue_rows(alloc, queues)?,
        })
    }

    pub fn geometry(&self) -> Geometry
        ensures { result ≡ self.now.geometry }
    {
        self.geometry
    }

    /// The number of the newest transaction, else the base.
    pub fn last(&self) -> TxNo
        ensures is { result ≡ self.now.base + length self.now.history }
        ensures limit { result ≤ number_limit }
    {
        TxNo(self.base + self.history.len() as u64)
    }

    pub fn front(&self) -> TxNo
        ensures is { result ≡ self.now.front }
        ensures low { self.now.base ≤ result }
        ensures high { result ≤ self.now.base + length self.now.history }
    {
        TxNo(self.front)
    }

    /// The number that changed a block last, else the base.
    pub fn last_change(&self, block: BlockNo) -> TxNo
        requires { block < homes_of self.now.geometry }
        ensures { result ≡ last self.now.base self.now.history block }
    {
        TxNo(self.newest_of(block).change)
    }

    /// The number that logged a block last, else the base.
    pub fn last_logged(&self, block: BlockNo) -> TxNo
        requires { block < homes_of self.now.geometry }
        ensures { result ≡ last_logged self.now.base self.now.history block }
    {
        TxNo(self.newest_of(block).logged)
    }

    /// Whether the last change of a block logged it.
    pub fn is_logged_last(&self, block: BlockNo) -> bool
        requires { block < homes_of self.now.geometry }
        ensures { IsTrue result ↔ LogsLast self.now block }
    {
        let latest = self.newest_of(block);
        latest.change == latest.logged
    }

    /// What stands on a home block after the whole history, or `None` for a free block.
    pub fn content(&self, block: BlockNo) -> Option<&Content>
        requires { block < homes_of self.now.geometry }
        ensures { MatchOption result (map_after (start_map self.now.start) self.now.history block ≡ None)
            (λ c. map_after (start_map self.now.start) self.now.history block ≡ Some c.now) }
    {
        let place = self.newest_of(block).place;
        find(&self.start, self.base, &self.history, block, place)
    }

    /// The last change of a block among the transactions up to the front, else the base.
    pub fn settled_change(&self, block: BlockNo) -> TxNo
        requires { block < homes_of self.now.geometry }
        ensures { result ≡ last self.now.base (upto self.now.front self.now.history) block }
    {
        TxNo(self.settled_of(block).change)
    }

    /// What stands on a home block after the transactions up to the front.
    pub fn settled_content(&self, block: BlockNo) -> Option<&Content>
        requires { block < homes_of self.now.geometry }
        ensures { MatchOption result (map_after (start_map self.now.start)
            (upto self.now.front self.now.history) block ≡ None)
            (λ c. map_after (start_map self.now.start)
            (upto self.now.front self.now.history) block ≡ Some c.now) }
    {
        let place = self.settled_of(block).place;
        find(&self.start, self.base, &self.history, block, place)
    }

    /// The count after the last entry of a queue.
    pub fn end(&self, queue: QueueNo) -> u64
        requires { queue < self.now.geometry.queues }
        ensures is { result ≡ end_of (from_of self.now queue) (own self.now queue) }
        ensures limit { result ≤ number_limit }
    {
        self.row(queue).end
    }

    /// The place after the last one of a queue.
    pub fn next_place(&self, queue: QueueNo) -> u64
        requires { queue < self.now.geometry.queues }
        ensures is { result ≡ next (own self.now queue) }
        ensures limit { result ≤ 2 ^ 62 }
    {
        self.row(queue).next
    }

    /// The place after those of a queue's transactions up to a number. The search goes over the queue's
    /// transactions above the number.
    pub fn covered_place(&self, queue: QueueNo, word: TxNo) -> u64
        requires { queue < self.now.geometry.queues }
        ensures is { result ≡ next (upto word (own self.now queue)) }
        ensures limit { result ≤ next (own self.now queue) }
    {
        self.row_at(queue, self.up_to(queue, word.0)).next
    }

    /// Whether a count stands right after a whole transaction of a queue, or before all. The search
    /// goes over the queue's transactions after the count.
    pub fn is_end(&self, queue: QueueNo, count: u64) -> bool
        requires { queue < self.now.geometry.queues }
        ensures { IsTrue result ↔ IsEnd (from_of self.now queue) (own self.now queue) count }
    {
        self.row_at(queue, self.ended(queue, count)).end == count
    }

    /// Whether each transaction of a queue that ends after the head has a number at or above the mark.
    /// The search goes over these.
    pub fn is_clear(&self, queue: QueueNo, head: u64, mark: u64) -> bool
        requires { queue < self.now.geometry.queues }
        ensures { IsTrue result ↔ IsClear self.now queue head mark }
    {
        let at = self.ended(queue, head);
        at == self.len(queue) || self.number_at(queue, at) >= mark
    }

    /// The entry of a count of a queue, with its write. The search goes over the queue's transactions
    /// after the count.
    pub fn entry(&self, alloc: Global, queue: QueueNo, count: u64) -> Result<Staged, OutOfMemory>
        requires queue { queue < self.now.geometry.queues }
        requires low { from_of self.now queue ≤ count }
        requires high { count < end_of (from_of self.now queue) (own self.now queue) }
        ensures { IfOk result (IsStaged self.now.geometry queue
            (item_at (from_of self.now queue) (own self.now queue) count)) }
    {
        let at = self.ended(queue, count);
        let before = self.row_at(queue, at);
        let number = self.number_at(queue, at);
        let tx = numbered(&self.history, self.base, number);
        stage_entry(
            alloc,
            self.geometry,
            tx,
            before,
            (count - before.end) as usize,
        )
    }

    /// Where the transaction after the front ends, or `None` where all are done.
    pub fn next_end(&self) -> Option<QueueEnd>
        ensures is { MatchOption result (self.now.base + length self.now.history ≤ self.now.front)
            (λ e. IsNextEnd self.now e) }
        ensures numbers { AreNumbered self.now.base self.now.history }
    {
        let at = (self.front - self.base) as usize;
        if at >= self.history.len() {
            return None;
        }
        let tx = &self.history[at];
        Some(QueueEnd {
            queue: tx.queue,
            count: self.ends[at],
        })
    }

    /// Takes one more transaction as done.
    pub fn advance_front(&mut self)
        requires { self.old.front < self.old.base + length self.old.history }
        ensures { self.new ≡ settle_next self.old }
    {
        let at = (self.front - self.base) as usize;
        mark(&mut self.settled, &self.history[at]);
        self.front += 1;
    }

    /// Adds a transaction.
    pub fn push(&mut self, tx: Tx) -> Result<(), OutOfMemory>
        requires { HasPlace self.old tx }
        ensures ok { OnOk result (self.new ≡ push_tx tx self.old) }
        ensures refused { OnErr result (self.new ≡ self.old) }
    {
        let row = row_after(self.row(tx.queue), &tx);
        reserve_one(&mut self.history, &mut self.ends)?;
        add_row(&mut self.queue_rows, tx.queue, row)?;
        mark(&mut self.newest, &tx);
        self.ends.push_reserved(row.end);
        self.history.push_reserved(tx);
        Ok(())
    }

    /// Whether the history may be followed by this transaction, if this number is the flushed base.
    pub fn may_draw(&self, tx: &Tx, word: TxNo) -> bool
        ensures { (k : KnownJournal) → IsKnown self.now word k → (IsTrue result ↔ MayDraw k tx.now) }
    {
        is_transaction(self.geometry, tx)
            && self.is_next(tx.number)
            && self.are_taken(tx.freed.as_slice())
            && self.are_open(tx.direct.as_slice(), tx.revoked.as_slice(), word)
    }

    fn newest_of(&self, block: BlockNo) -> Latest
        requires { block < homes_of self.now.geometry }
        ensures is { IsLatest self.now.start self.now.base self.now.history block result }
        ensures numbers { AreNumbered self.now.base self.now.history }
        ensures limit { (result.change ≤ number_limit) × (result.logged ≤ number_limit) }
    {
        self.newest[block.0 as usize]
    }

    fn settled_of(&self, block: BlockNo) -> Latest
        requires { block < homes_of self.now.geometry }
        ensures is { IsLatest self.now.start self.now.base
            (upto self.now.front self.now.history) block result }
        ensures limit { result.change ≤ number_limit }
    {
        self.settled[block.0 as usize]
    }

    fn len(&self, queue: QueueNo) -> usize
        requires { queue < self.now.geometry.queues }
        ensures is { result ≡ length (own self.now queue) }
        ensures counts { end_of (from_of self.now queue) (own self.now queue) ≤ number_limit }
        ensures places { next (own self.now queue) ≤ 2 ^ 62 }
    {
        self.queue_rows[queue.0 as usize].len()
    }

    /// The row before a place of a queue.
    fn row_at(&self, queue: QueueNo, at: usize) -> Row
        requires queue { queue < self.now.geometry.queues }
        requires at { at ≤ length (own self.now queue) }
        ensures { (txs : List Record)
            → IsPart txs (own self.now queue)
            → length txs ≡ at
            → result ≡ row_of (from_of self.now queue) txs }
    {
        let from = self.starts[queue.0 as usize];
        self.queue_rows[queue.0 as usize].before(from, at)
    }

    /// The number of the transaction at a place of a queue.
    fn number_at(&self, queue: QueueNo, at: usize) -> u64
        requires queue { queue < self.now.geometry.queues }
        requires at { at < length (own self.now queue) }
        ensures { (t : Record) (txs : List Record)
            → IsAt t txs (own self.now queue)
            → length txs ≡ at
            → result ≡ t.number }
    {
        self.queue_rows[queue.0 as usize].number(at)
    }

    /// The number of a queue's transactions that end at or before a count.
    fn ended(&self, queue: QueueNo, count: u64) -> usize
        requires { queue < self.now.geometry.queues }
        ensures is { result ≡ length (below (from_of self.now queue) count (own self.now queue)) }
        ensures numbers { AreNumbered self.now.base self.now.history }
        ensures bound { result ≤ length (own self.now queue) }
    {
        self.queue_rows[queue.0 as usize].ended(count)
    }

    /// The number of a queue's transactions with a number up to this one.
    fn up_to(&self, queue: QueueNo, number: u64) -> usize
        requires { queue < self.now.geometry.queues }
        ensures is { result ≡ length (upto number (own self.now queue)) }
        ensures bound { result ≤ length (own self.now queue) }
    {
        self.queue_rows[queue.0 as usize].up_to(number)
    }

    /// The row after all transactions of a queue.
    fn row(&self, queue: QueueNo) -> Row
        requires { queue < self.now.geometry.queues }
        ensures is { result ≡ row_of (from_of self.now queue) (own self.now queue) }
        ensures counts { result.end ≤ number_limit }
        ensures places { result.next ≤ 2 ^ 62 }
    {
        self.row_at(queue, self.len(queue))
    }

    fn is_next(&self, number: TxNo) -> bool
        ensures { IsTrue result
            ↔ ((number ≡ self.now.base + length self.now.history + 1) × (number ≤ number_limit)) }
    {
        number.0 == self.last().0 + 1 && number.0 <= LIMIT
    }

    fn are_taken(&self, blocks: &[BlockNo]) -> bool
        requires { AreRising 0 (homes_of self.now.geometry) blocks.now }
        ensures { IsTrue result ↔ Every (IsTaken self.now) blocks.now }
    {
        for block in blocks {
            if self.content(*block).is_none() {
                return false;
            }
        }
        true
    }

    /// Whether a block is free and settled, and its copies above the flushed base are revoked.
    fn is_open(&self, block: BlockNo, revoked: &[BlockNo], word: TxNo) -> bool
        requires block { block < homes_of self.now.geometry }
        requires revoked { IsAscending revoked.now }
        ensures { IsTrue result ↔ IsOpen self.now word revoked.now block }
    {
        self.content(block).is_none()
            && self.last_change(block).0 <= self.front
            && (self.last_logged(block).0 <= word.0 || is_listed(revoked, block))
    }

    fn are_open(&self, writes: &[(BlockNo, Content)], revoked: &[BlockNo], word: TxNo) -> bool
        requires rising { AreRising 0 (homes_of self.now.geometry) (blocks_of writes.now) }
        requires revoked { IsAscending revoked.now }
        ensures { IsTrue result ↔ Every (IsOpen self.now word revoked.now) (blocks_of writes.now) }
    {
        for write in writes {
            if !self.is_open(write.0, revoked, word) {
                return false;
            }
        }
        true
    }
}
