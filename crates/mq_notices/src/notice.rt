// What a session passes to its helper.
use mq_blocks::TxNo;

/// A notice of a transaction that was rung. The last notice has no number.
#[derive(Clone, Copy, PartialEq, Eq)]
pub struct Notice {
    pub index: u64,
    pub number: Option<TxNo>,
}
