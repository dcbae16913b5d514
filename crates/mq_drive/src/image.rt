// What a power cut leaves of a port.
use mq_blocks::Block;
use mq_nvme::Entry;
use std::marker::Model;

/// The content of a port after a power cut: words, ring and blocks. A queue's blocks are those of its
/// journal area and then of its zone, the root's are the metadata region; `None` is a block of zeros. A
/// queue has `RING_DEPTH` slots, and base 0; the root has no slots, doorbell 0 and head 0.
#[derive(Drop)]
pub struct PortImage {
    pub doorbell: u64,
    pub head: u64,
    pub base: u64,
    pub slots: Vec<Entry>,
    pub blocks: Vec<Option<Block>>,
}

impl Model for PortImage {
    ghost use Rattle.mq_blocks.specs.Drive as drive;

    ghost Value = { drive.PortImage };

    ghost view = { λ i. record { doorbell = i.doorbell; head = i.head; base = i.base; slots = i.slots.items; blocks = i.blocks.items } };
}
