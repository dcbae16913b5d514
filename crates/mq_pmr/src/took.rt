// What a completion was.
use mq_blocks::TxNo;

/// What one step of a queue completed.
#[derive(Clone, Copy, PartialEq, Eq)]
pub enum Took {
    /// Nothing is posted.
    Idle,
    /// The command in this slot has ended with success.
    One { slot: u32 },
    /// A command of this transaction has ended with this error.
    Bad { tx: TxNo, status: u16 },
}
