// The turns of a desk, and what lies under them.
use crate::machine::Machine;
use mq_blocks::{BlockNo, QueueNo};

/// A turn of a desk. A chair takes turns in this order: pages by number, then sides by queue, and
/// the root last.
#[derive(Clone, Copy, PartialEq, Eq, PartialOrd, Ord)]
pub enum Turn {
    Page(BlockNo),
    Side(QueueNo),
    Root,
}

/// The value under a turn: a page under `Turn::Page`, and so on.
#[derive(Drop)]
pub enum Item<M: Machine> {
    Page(M::Page),
    Side(M::Side),
    Root(M::Root),
}
