// Why requests cannot go on.
ghost use Rattle.std.specs.Prelude.{◌≡◌, [], ◌∷◌, IfOk};

use mq_blocks::{BlockNo, OutOfMemory};
use std::alloc::{AllocError, AllocFailed, Global};

/// What a request misses: absent pages at which it looks, or memory.
#[derive(Drop)]
pub enum Missing {
    Need(Vec<BlockNo>),
    OutOfMemory,
}

impl From<OutOfMemory> for Missing {
    ghost use Rattle.mq_inodes.specs.declared.lack.Missing.TheVariants.{OutOfMemory};
    ghost use Rattle.std.specs.Prelude.{◌≡◌};

    ghost from_gives = { λ _ e. e ≡ OutOfMemory };

    fn from(_: OutOfMemory) -> Self {
        Missing::OutOfMemory
    }
}

impl From<AllocError> for Missing {
    ghost use Rattle.mq_inodes.specs.declared.lack.Missing.TheVariants.{OutOfMemory};
    ghost use Rattle.std.specs.Prelude.{◌≡◌};

    ghost from_gives = { λ _ e. e ≡ OutOfMemory };

    fn from(_: AllocError) -> Self {
        Missing::OutOfMemory
    }
}

impl<T: Drop> From<AllocFailed<T>> for Missing {
    ghost use Rattle.mq_inodes.specs.declared.lack.Missing.TheVariants.{OutOfMemory};
    ghost use Rattle.std.specs.Prelude.{◌≡◌};

    ghost from_gives = { λ _ e. e ≡ OutOfMemory };

    fn from(_: AllocFailed<T>) -> Self {
        Missing::OutOfMemory
    }
}

/// A list of one block.
pub fn one(alloc: Global, b: BlockNo) -> Result<Vec<BlockNo>, OutOfMemory>
    ensures { IfOk result (λ blocks. blocks.items ≡ b ∷ []) }
{
    let mut blocks = Vec::new(alloc);
    blocks.push(b)?;
    Ok(blocks)
}
