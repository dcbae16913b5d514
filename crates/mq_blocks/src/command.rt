// Writes that are under way on a port.
use crate::{Block, Lba};

/// A write command of a queue: staged, posted or failed. Its count is the absolute number of its
/// entry in the queue, and its number that of its transaction.
#[derive(Drop)]
pub struct Command {
    pub count: u64,
    pub tx: u64,
    pub lba: Lba,
    pub block: Block,
}

/// A write of a home block that goes through a queue in host memory.
#[derive(Drop)]
pub struct HomeWrite {
    pub lba: Lba,
    pub block: Block,
}
