// A transaction.
use crate::{Blocks, Writes};
use mq_blocks::{QueueNo, TxNo};

/// A transaction of a queue, with its home blocks in rising order.
#[derive(Drop)]
pub struct Tx {
    pub number: TxNo,
    pub queue: QueueNo,
    /// What is written as a copy in the journal area of the queue.
    pub logged: Writes,
    /// What is written to its home block by the queue itself.
    pub direct: Writes,
    /// The blocks whose earlier copies no longer count.
    pub revoked: Blocks,
    /// The blocks that are free from here on.
    pub freed: Blocks,
}
