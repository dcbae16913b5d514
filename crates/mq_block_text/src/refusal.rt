// Why a text is not read.
ghost use Rattle.std.specs.Prelude.{◌≡◌};
ghost use Rattle.mq_block_text.specs.declared.refusal.BlockTextRefusal.TheVariants.{OutOfMemory as out_of_memory};

use mq_blocks::OutOfMemory;
use std::alloc::{AllocError, AllocFailed};

/// Why a line is not read.
#[derive(Clone, Copy, PartialEq, Eq)]
pub enum BlockTextCause {
    /// The line has no bytes.
    Empty,
    /// An item is not in the form.
    Item,
    /// An item names a block that texts may not name.
    Block,
    /// An item names a block that an item before it in the line names.
    Twice,
    /// The lines up to this one take more places than the smallest journal area has.
    Area,
}

impl BlockTextCause {
    ghost use Rattle.mq_block_text.specs.Refusals.{cause_name};

    /// The cause as it is printed.
    pub fn name(self) -> &'static str
        ensures { result.now ≡ cause_name self }
    {
        match self {
            BlockTextCause::Empty => "Empty",
            BlockTextCause::Item => "Item",
            BlockTextCause::Block => "Block",
            BlockTextCause::Twice => "Twice",
            BlockTextCause::Area => "Area",
        }
    }
}

/// Why a block text is not read.
#[derive(Clone, Copy, PartialEq, Eq)]
pub enum BlockTextRefusal {
    /// The first line that is refused, counted from 1, and its first cause.
    At { line: u32, cause: BlockTextCause },
    /// Memory ran out. The text may be good.
    OutOfMemory,
}

impl From<OutOfMemory> for BlockTextRefusal {
    ghost from_gives = { λ _ e. e ≡ out_of_memory };

    fn from(_: OutOfMemory) -> Self {
        BlockTextRefusal::OutOfMemory
    }
}

impl From<AllocError> for BlockTextRefusal {
    ghost from_gives = { λ _ e. e ≡ out_of_memory };

    fn from(_: AllocError) -> Self {
        BlockTextRefusal::OutOfMemory
    }
}

impl<T: Drop> From<AllocFailed<T>> for BlockTextRefusal {
    ghost from_gives = { λ _ e. e ≡ out_of_memory };

    fn from(_: AllocFailed<T>) -> Self {
        BlockTextRefusal::OutOfMemory
    }
}
