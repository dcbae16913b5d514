// Which part of the drive a port is.
use mq_blocks::QueueNo;

/// The part of the drive that a port reaches: a queue's ring, words, journal area and zone, or the
/// root's base word and metadata region.
#[derive(Clone, Copy, PartialEq, Eq)]
pub enum Role {
    Queue(QueueNo),
    Root,
}
