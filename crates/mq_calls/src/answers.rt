// What the calls of a session answer.
use mq_tree::Reply;

/// A group that was done: the number of its transaction, or that at which it was read; whether it drew that
/// number, which it does if it changed something; and the replies to its requests, in their order.
pub type Answer = mq_sessions::Answer<Reply>;
