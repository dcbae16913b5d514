// The transactions of a queue.
ghost use Rattle.std.specs.Prelude.{◌≡◌, ◌<◌, ◌≤◌, ◌++◌, ◌∷◌, [], IfOk, OnOk, OnErr, length, reverse, slice_index_or, slice_set};
ghost use Rattle.mq_ledger.specs.Tables.{row_before, rows_from, ends_by, is_up_to, no_row};

use mq_blocks::{OutOfMemory, QueueNo};
use std::alloc::Global;
use std::marker::Model;

/// Where a transaction of a queue ends.
#[derive(Clone, Copy)]
pub struct Row {
    pub number: u64,
    /// The count after its entries.
    pub end: u64,
    /// The place after its descriptor.
    pub next: u64,
}

/// Where a transaction ends: the count after its entries on its queue.
#[derive(Clone, Copy, PartialEq, Eq)]
pub struct QueueEnd {
    pub queue: QueueNo,
    pub count: u64,
}

/// A row for each transaction of a queue, the oldest first.
#[derive(Drop)]
pub struct QueueRows {
    rows: Vec<Row>,
}

impl Model for QueueRows {
    ghost use Rattle.std.specs.Prelude.{List};
    ghost use Rattle.mq_ledger.specs.declared.queue_rows.Row.{Row};

    ghost Value = { List Row };

    ghost view = { λ l. l.rows.items };
}

impl QueueRows {
    pub fn new(alloc: Global) -> QueueRows
        ensures { result ≡ [] }
    {
        QueueRows {
            rows: Vec::new(alloc),
        }
    }

    pub fn push(&mut self, row: Row) -> Result<(), OutOfMemory>
        ensures ok { OnOk result (self.new ≡ self.old ++ row ∷ []) }
        ensures refused { OnErr result (self.new ≡ self.old) }
    {
        self.rows.push(row)?;
        Ok(())
    }

    pub fn len(&self) -> usize
        ensures { result ≡ length self.now }
    {
        self.rows.len()
    }

    pub fn number(&self, at: usize) -> u64
        requires { at < length self.now }
        ensures { result ≡ (slice_index_or self.now at (no_row 0)).number }
    {
        self.rows[at].number
    }

    /// The row before a place of a queue that begins at this count.
    pub fn before(&self, from: u64, at: usize) -> Row
        requires { at ≤ length self.now }
        ensures { result ≡ row_before from self.now at }
    {
        if at == 0 {
            return Row {
                number: 0,
                end: from,
                next: 0,
            };
        }
        self.rows[at - 1]
    }

    /// The number of transactions that end at or before a count. The search goes over those that
    /// end after it.
    pub fn ended(&self, count: u64) -> usize
        ensures is { result ≡ rows_from (ends_by count) (reverse self.now) }
        ensures bound { result ≤ length self.now }
    {
        let mut at = self.rows.len();
        while at > 0 && self.rows[at - 1].end > count {
            at -= 1;
        }
        at
    }

    /// The number of transactions with a number up to this one. The search goes over those above
    /// it.
    pub fn up_to(&self, number: u64) -> usize
        ensures is { result ≡ rows_from (is_up_to number) (reverse self.now) }
        ensures bound { result ≤ length self.now }
    {
        let mut at = self.rows.len();
        while at > 0 && self.rows[at - 1].number > number {
            at -= 1;
        }
        at
    }
}

/// Adds a row at a queue's end.
pub fn add_row(queue_rows: &mut Vec<QueueRows>, queue: QueueNo, row: Row) -> Result<(), OutOfMemory>
    requires { queue < length queue_rows.old.items }
    ensures ok { OnOk result (queue_rows.new.items ≡ slice_set queue_rows.old.items queue
        (slice_index_or queue_rows.old.items queue [] ++ row ∷ [])) }
    ensures refused { OnErr result (queue_rows.new.items ≡ queue_rows.old.items) }
{
    let lane = &mut queue_rows[queue.0 as usize];
    lane.push(row)
}
