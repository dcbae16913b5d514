// A page with its numbers, and what a transaction writes.
use mq_blocks::{Block, BlockNo, TxNo};

/// A home block as the sessions share it.
///
/// `content` is `None` where the block is free. `version` is the last transaction that wrote or freed
/// the block since the mount, or the base at the mount. `last_logged` is the last one whose copy of it
/// went to a journal area, and `home_version` the one whose content stands at home.
#[derive(Drop)]
pub struct PageCell {
    pub content: Option<Block>,
    pub version: TxNo,
    pub last_logged: TxNo,
    pub home_version: TxNo,
}

/// Whether a block holds metadata of the file system or the bytes of a file.
#[derive(Clone, Copy, PartialEq, Eq)]
pub enum Kind {
    Meta,
    Data,
}

/// A block that a transaction writes.
#[derive(Drop)]
pub struct Write {
    pub block: BlockNo,
    pub kind: Kind,
    pub content: Block,
}

/// A copy of what a transaction writes to a block. The page itself may change after the copy was made
/// ("metadata shadow paging", Liao et al., SOSP 2021).
#[derive(Drop)]
pub struct ShadowPage {
    pub block: BlockNo,
    pub content: Block,
}
