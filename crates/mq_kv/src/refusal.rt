// Why a store is not opened.
use mq_blocks::BlockNo;

/// Why a store is not opened.
#[derive(Clone, Copy, PartialEq, Eq)]
pub enum KvOpenRefusal {
    /// The least bucket that is not in its form, and the offset of its first bad record or byte.
    Bucket { block: BlockNo, offset: u32 },
    OutOfMemory,
}
