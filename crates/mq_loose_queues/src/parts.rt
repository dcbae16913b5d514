// What the queues of a drive are made of.
use crate::changes::Change;
use mq_blocks::{Geometry, TxNo};
use mq_drive::Port;
use mq_loose::LooseRow;
use mq_queue_side::{QueueSide, Root};

/// The sides of all queues, the root, and what is kept of the transactions and of the home blocks.
#[derive(Drop)]
pub struct Parts<P: Port> {
    pub geometry: Geometry,
    pub sides: Vec<QueueSide<P, ()>>,
    pub root: Root<P>,
    /// Of each home block.
    pub changes: Vec<Change>,
    /// Of each transaction, the oldest first.
    pub rows: Vec<LooseRow>,
    /// Whether it is settled.
    pub flags: Vec<bool>,
}

impl<P: Port> Parts<P> {
    ghost use Rattle.std.specs.Prelude.{◌≡◌, ◌≤◌, ◌+◌, ◌^◌, length};
    ghost use Rattle.mq_loose_queues.specs.Queues.{next_number, parts_state};

    /// The number of the next commit.
    pub fn next_number(&self) -> TxNo
        requires { (P.state self.now.root.port).base + length self.now.rows.items + 1 ≤ 2 ^ 63 }
        ensures { result ≡ next_number (parts_state P.state P.faults self.now) }
    {
        TxNo(self.root.base().0 + self.rows.len() as u64 + 1)
    }
}
