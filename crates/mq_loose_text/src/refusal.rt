// Why a text of the loose order is refused.
ghost use Rattle.std.specs.Prelude.{◌≡◌};
ghost use Rattle.mq_loose_text.specs.declared.refusal.LooseTextRefusal.TheVariants.{OutOfMemory as out_of_memory};

use mq_blocks::OutOfMemory;
use std::alloc::{AllocError, AllocFailed};

/// Why a text is refused.
#[derive(Clone, Copy, PartialEq, Eq)]
pub enum LooseTextRefusal {
    /// The first line that may not stand there, counted from 1.
    Line { line: u64 },
    /// Memory ran out. The text may be good.
    OutOfMemory,
}

impl From<OutOfMemory> for LooseTextRefusal {
    ghost from_gives = { λ _ e. e ≡ out_of_memory };

    fn from(_: OutOfMemory) -> Self {
        LooseTextRefusal::OutOfMemory
    }
}

impl From<AllocError> for LooseTextRefusal {
    ghost from_gives = { λ _ e. e ≡ out_of_memory };

    fn from(_: AllocError) -> Self {
        LooseTextRefusal::OutOfMemory
    }
}

impl<T: Drop> From<AllocFailed<T>> for LooseTextRefusal {
    ghost from_gives = { λ _ e. e ≡ out_of_memory };

    fn from(_: AllocFailed<T>) -> Self {
        LooseTextRefusal::OutOfMemory
    }
}
