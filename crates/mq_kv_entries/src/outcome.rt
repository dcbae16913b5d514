// What a group of operations comes to.
use mq_blocks::BlockNo;
use mq_kv_buckets::KvReply;
use mq_pages::Write;

/// A group that was done, or the buckets that it misses.
#[derive(Drop)]
pub enum KvOutcome {
    Done(KvDone),
    /// The buckets of its keys that are not held, each once and in rising order.
    Need(Vec<BlockNo>),
}

/// The replies of a group, and the buckets whose bytes differ from those before it, in rising order.
#[derive(Drop)]
pub struct KvDone {
    pub replies: Vec<KvReply>,
    pub writes: Vec<Write>,
}
