// A replica's side and root, while they are open.
ghost use Rattle.std.specs.Prelude.{◌≡◌, ◌≤◌, [], vec_capacity};

use mq_blocks::TxNo;
use mq_drive::Port;
use mq_queue_side::{QueueSide, Root};

/// The queue's side and the root, on which nothing is under way between two offers.
#[derive(Drop)]
pub struct Opened<Q: Port> {
    pub side: QueueSide<Q, ()>,
    pub root: Root<Q>,
    // where the queue's port goes when they are taken apart, so that this takes no memory
    pub spare: Vec<Q>,
    // the last number of the drive's own journal
    pub number: TxNo,
    ghost empty: { spare.items ≡ [] },
    ghost room: { 1 ≤ vec_capacity spare },
}
