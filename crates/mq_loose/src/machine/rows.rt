// What the machine keeps of each transaction beside the ledger.
ghost use Rattle.std.specs.Prelude.{◌≡◌, ◌<◌, ◌≤◌, ◌^◌, ℕ, List, [], IfOk, length, reverse};
ghost use Rattle.mq_blocks.specs.Journal.{number_limit};
ghost use Rattle.mq_ledger.specs.History.{blocks_of, of_queue};
ghost use Rattle.mq_ledger.specs.Items.{next, number_before, end_of, further_blocks};
ghost use Rattle.mq_ledger.specs.State.{from_at};
ghost use Rattle.mq_ledger.specs.declared.tx.Tx.{Tx as Record};
ghost use Rattle.mq_loose_order.specs.Dependence.{depends_on};
ghost use Rattle.mq_loose.specs.Rows.{newest_number, row_for};

use mq_area::Descriptor;
use mq_blocks::{BlockNo, OutOfMemory, QueueNo, TxNo};
use mq_ledger::{Content, Tx};
use mq_loose_order::Numbers;
use std::alloc::Global;

/// A transaction of the history.
#[derive(Drop)]
pub struct LooseRow {
    pub queue: QueueNo,
    /// The count after its entries on its queue.
    pub end: u64,
    pub descriptor: Descriptor,
    /// The numbers on which it depends.
    pub deps: Numbers,
}

impl LooseRow {
    pub fn number(&self) -> u64
        ensures { result ≡ self.now.descriptor.number }
    {
        let descriptor = &self.descriptor;
        descriptor.number
    }
}

/// The row of the transaction of a number that logs these blocks and nothing else, where its queue ends at this
/// count and place, after a transaction of this number.
pub fn row_with(
    alloc: Global,
    number: TxNo,
    queue: QueueNo,
    logged: Vec<BlockNo>,
    deps: Numbers,
    end: u64,
    place: u64,
    prev_number: u64,
) -> LooseRow
    requires few { length logged.items < 2 ^ 16 }
    requires end { end ≤ number_limit }
    requires place { place ≤ 2 ^ 62 }
    ensures { (base : ℕ) (starts : List ℕ) (t : Record) (ts : List Record)
        → t.number ≡ number
        → t.queue ≡ queue
        → blocks_of t.logged ≡ logged.items
        → t.direct ≡ []
        → t.revoked ≡ []
        → further_blocks t ≡ 0
        → end ≡ end_of (from_at starts t.queue) (of_queue t.queue ts)
        → place ≡ next (of_queue t.queue ts)
        → prev_number ≡ number_before (of_queue t.queue ts)
        → deps ≡ depends_on base t ts
        → result ≡ row_for base starts t ts }
{
    let copies = logged.len() as u64;
    let descriptor = Descriptor {
        queue: queue.0,
        number: number.0,
        place: place + copies,
        prev_place: place.saturating_sub(1),
        prev_number,
        logged,
        revoked: Vec::new(alloc),
    };
    LooseRow {
        queue,
        end: end + (copies + 1),
        descriptor,
        deps,
    }
}

/// The row of a transaction whose queue ends at this count and place, after a transaction of this number.
pub fn row_of(
    alloc: Global,
    tx: &Tx,
    deps: Numbers,
    end: u64,
    place: u64,
    prev_number: u64,
) -> Result<LooseRow, OutOfMemory>
    requires few { length tx.now.logged < 2 ^ 16 }
    requires one { further_blocks tx.now ≡ 0 }
    requires direct { tx.now.direct ≡ [] }
    requires revoked { tx.now.revoked ≡ [] }
    requires end { end ≤ number_limit }
    requires place { place ≤ 2 ^ 62 }
    ensures { IfOk result (λ r. (base : ℕ) (starts : List ℕ) (ts : List Record)
        → end ≡ end_of (from_at starts tx.now.queue) (of_queue tx.now.queue ts)
        → place ≡ next (of_queue tx.now.queue ts)
        → prev_number ≡ number_before (of_queue tx.now.queue ts)
        → deps ≡ depends_on base tx.now ts
        → r ≡ row_for base starts tx.now ts) }
{
    let logged = logged_blocks(alloc, tx.logged.as_slice())?;
    Ok(row_with(
        alloc,
        tx.number,
        tx.queue,
        logged,
        deps,
        end,
        place,
        prev_number,
    ))
}

/// The blocks that these writes write.
pub fn logged_blocks(
    alloc: Global,
    writes: &[(BlockNo, Content)],
) -> Result<Vec<BlockNo>, OutOfMemory>
    ensures { IfOk result (λ v. v.items ≡ blocks_of writes.now) }
{
    let mut blocks = Vec::new(alloc);
    for write in writes {
        blocks.push(write.0)?;
    }
    Ok(blocks)
}

/// The number of a queue's newest transaction, or 0. The search goes over the transactions after it.
pub fn newest_of(rows: &[LooseRow], queue: QueueNo) -> u64
    ensures { result ≡ newest_number queue (reverse rows.now) }
{
    let mut at = rows.len();
    while at > 0 {
        let row = &rows[at - 1];
        if row.queue.0 == queue.0 {
            return row.number();
        }
        at -= 1;
    }
    0
}
