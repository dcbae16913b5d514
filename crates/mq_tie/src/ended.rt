// What a run leaves.
ghost use Rattle.std.specs.Prelude.{◌≡◌, ◌≤◌, [], length, vec_len, vec_capacity};
ghost use Rattle.mq_tie.specs.Stored.{entries_at, stored_by};

use mq_blocks::TxNo;
use mq_drive::Port;
use mq_pages::PageCell;
use mq_queue_side::{QueueSide, Root};

/// Where an entry is stored: the queue, and the place among those that were drawn on it, the oldest first.
#[derive(Clone, Copy, PartialEq, Eq)]
pub(crate) struct EntryPlace {
    pub(crate) queue: usize,
    pub(crate) place: usize,
}

/// What a run leaves, once no chair holds anything: the ports, the cells of the home blocks, and the
/// history in number order. Each entry is stored once, in the side of its queue, and no entry was copied.
#[derive(Drop)]
pub struct Ended<P: Port, E> {
    /// The cells of the home blocks.
    pub pages: Vec<PageCell>,
    /// The root.
    pub root: Root<P>,
    /// For each queue, the last number of which its side knows that it is done, or 0.
    pub done: Vec<TxNo>,
    /// The last number drawn, or the base at the opening.
    pub next: TxNo,
    /// The base, as it was last raised.
    pub base: TxNo,
    pub(crate) sides: Vec<QueueSide<P, E>>,
    // where the entry of each number is stored
    pub(crate) order: Vec<EntryPlace>,
    // room for the queues' ports
    pub(crate) queues: Vec<P>,
    ghost found: { length (entries_at (stored_by sides.items) order.items) ≡ length order.items },
    ghost room: { (queues.items ≡ []) × (vec_len sides ≤ vec_capacity queues) },
}
