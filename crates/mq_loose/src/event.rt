// The events of the loose machine.
use mq_blocks::{BlockNo, QueueNo, TxNo};
use mq_ledger::{Blocks, Writes};
use mq_loose_order::Numbers;

/// A transaction of a queue, with its home blocks in rising order. Each block that it writes is logged.
#[derive(Drop)]
pub struct LooseTx {
    pub number: TxNo,
    pub queue: QueueNo,
    /// What is written as a copy in the journal area of the queue.
    pub logged: Writes,
    /// The blocks that are free from here on.
    pub freed: Blocks,
    /// The numbers on which it depends, in rising order.
    pub deps: Numbers,
}

/// One event of the machine.
#[derive(Drop)]
pub enum LooseEvent {
    /// A transaction takes the next number.
    Draw(LooseTx),
    /// The next entry of the queue's drawn transaction is staged.
    Stage { queue: QueueNo },
    /// What is staged on the queue becomes certain.
    Flush { queue: QueueNo },
    /// What is staged and flushed on the queue is posted.
    Ring { queue: QueueNo },
    /// The posted command of this count ends with success.
    Complete { queue: QueueNo, count: u64 },
    /// The posted command of this count ends with an error.
    FailCommand { queue: QueueNo, count: u64 },
    /// The queue's head is stored.
    StoreHead { queue: QueueNo, head: u64 },
    /// The queue's stored head becomes certain.
    FlushHead { queue: QueueNo },
    /// This number and all on which it depends are done, and it is acknowledged to the caller.
    Acknowledge { number: TxNo },
    /// A home write of the block's content begins.
    WriteHome { block: BlockNo },
    /// The last home write of the block that is under way ends with success.
    HomeDone { block: BlockNo },
    /// The base is stored: recovery needs no transaction up to it.
    StoreBase { base: TxNo },
    /// The stored base becomes certain.
    FlushBase,
}
