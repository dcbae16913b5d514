// What a session reads before it places the blocks of a group.
use mq_blocks::TxNo;

/// What a session read before it placed the blocks of a group: all transactions up to the front were
/// done, and no copy up to the base counted any more.
#[derive(Clone, Copy, PartialEq, Eq)]
pub struct Reads {
    pub front: TxNo,
    pub base: TxNo,
}
