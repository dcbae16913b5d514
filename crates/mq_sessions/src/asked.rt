// What a call asks.
use mq_blocks::QueueNo;

/// A group of requests, and the call that asks for it.
#[derive(Drop)]
pub struct Asked<'a, Q> {
    /// The session's queue, whose number is the session's.
    pub queue: QueueNo,
    /// The number of calls that the session made before this one.
    pub calls: u64,
    /// Whether the caller waits until the group is done.
    pub durable: bool,
    pub requests: &'a [Q],
}
