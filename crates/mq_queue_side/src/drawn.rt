// What a side stores of a transaction.
use mq_blocks::TxNo;

/// A transaction that was drawn on a queue.
#[derive(Drop)]
pub struct Drawn<E> {
    pub number: TxNo,
    /// The place after its descriptor in the journal area of the queue.
    pub next: u64,
    pub entry: E,
}
