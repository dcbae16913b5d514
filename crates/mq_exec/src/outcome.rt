// What a group of requests comes to.
use mq_blocks::BlockNo;
use mq_pages::Write;
use mq_tree::Reply;

/// A group that was done, or the pages that it misses.
#[derive(Drop)]
pub enum Outcome {
    Done(Done),
    /// Absent pages at which the group looks, at least one, in rising order of blocks.
    Need(Vec<BlockNo>),
}

/// The replies of a group, and its change: the blocks that it writes and those that it frees, both in
/// rising order.
#[derive(Drop)]
pub struct Done {
    pub replies: Vec<Reply>,
    pub writes: Vec<Write>,
    pub frees: Vec<BlockNo>,
}
