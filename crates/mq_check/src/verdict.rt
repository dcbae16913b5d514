// What a check of home blocks answers.
use mq_blocks::BlockNo;
use mq_tree::CorruptCause;

/// What is wrong at a block.
pub type CheckCause = CorruptCause;

/// What a check of home blocks finds.
#[derive(Clone, Copy, PartialEq, Eq)]
pub enum Verdict {
    /// The blocks have a tree, with this many directories, the root among them, this many files, each counted once
    /// whatever names it has, and this many blocks of zones that are used.
    Sound {
        dirs: u32,
        files: u32,
        blocks: u32,
    },
    /// The blocks have no tree. No earlier phase found anything; this one, from 1 to 6, found this cause at the
    /// least block.
    Unsound {
        phase: u32,
        cause: CheckCause,
        block: BlockNo,
    },
}
