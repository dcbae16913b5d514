// What a descriptor says, and what is known of one before it is read.
use mq_blocks::{BlockNo, QueueNo, TxNo};
use std::marker::Model;

/// The descriptor of a transaction, which stands right after the copies of its logged blocks in the
/// journal area of its queue.
#[derive(Drop)]
pub struct Descriptor {
    pub queue: u32,
    pub number: u64,
    /// Where the descriptor stands, as an absolute count of blocks of its queue's area.
    pub place: u64,
    /// The place of the previous descriptor of the same queue, or 0.
    pub prev_place: u64,
    /// The number of that descriptor, or 0.
    pub prev_number: u64,
    /// The home blocks whose copies stand before the descriptor, in rising order.
    pub logged: Vec<BlockNo>,
    /// The home blocks whose earlier copies no longer count, in rising order.
    pub revoked: Vec<BlockNo>,
}

impl Model for Descriptor {
    ghost use Rattle.mq_blocks.specs.Descriptor.{Descriptor as Text};

    ghost Value = { Text };

    ghost view = { λ d. record {
      queue = d.queue;
      number = d.number;
      place = d.place;
      prev_place = d.prev_place;
      prev_number = d.prev_number;
      logged = d.logged.items;
      revoked = d.revoked.items;
    } };
}

/// What is known of the place of a descriptor before it is read.
#[derive(Clone, Copy, PartialEq, Eq)]
pub enum PlaceIs {
    /// The place modulo the area is this one.
    Index(u32),
    /// The place is this one.
    Exact(u64),
}

/// What is known of a descriptor before it is read.
#[derive(Clone, Copy, PartialEq, Eq)]
pub struct Expect {
    pub queue: QueueNo,
    pub number: TxNo,
    pub place: PlaceIs,
}
