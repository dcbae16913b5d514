// The events of the machine.
ghost use Rattle.std.specs.Prelude.{◌≡◌};
ghost use Rattle.mq_core.specs.declared.event.CoreRefusal.TheVariants.{OutOfMemory as out_of_memory};

use mq_blocks::{BlockNo, OutOfMemory, QueueNo, TxNo};
use mq_ledger::Tx;
use std::alloc::{AllocError, AllocFailed};

/// One event of the machine.
#[derive(Drop)]
pub enum Event {
    /// A transaction takes the next number.
    Draw(Tx),
    /// The next entry of the queue's drawn transaction is staged.
    Stage { queue: QueueNo },
    /// What is staged on the queue becomes certain.
    Flush { queue: QueueNo },
    /// What is staged and flushed on the queue is posted.
    Ring { queue: QueueNo },
    /// The posted command of this count ends with success.
    Complete { queue: QueueNo, count: u64 },
    /// The posted command of this count ends with an error.
    FailCommand { queue: QueueNo, count: u64 },
    /// The queue's head is stored.
    StoreHead { queue: QueueNo, head: u64 },
    /// The queue's stored head becomes certain.
    FlushHead { queue: QueueNo },
    /// The queue's mark: each of its numbers that isn't done is at or above it.
    Clear { queue: QueueNo, low: u64 },
    /// All numbers up to this one are done, and this is acknowledged to the caller.
    Acknowledge { number: TxNo },
    /// A home write of the block's content begins.
    WriteHome { block: BlockNo },
    /// The last home write of the block that is under way ends with success.
    HomeDone { block: BlockNo },
    /// The base is stored: recovery needs no transaction up to it.
    StoreBase { base: TxNo },
    /// The stored base becomes certain.
    FlushBase,
}

/// Why an event does not happen.
#[derive(Clone, Copy, PartialEq, Eq)]
pub enum CoreRefusal {
    /// The event at this index of a list is not allowed in the state that it meets. For a single
    /// event the index is 0.
    NotAllowed { index: u64 },
    /// Memory ran out. The event may be allowed.
    OutOfMemory,
}

impl CoreRefusal {
    ghost use Rattle.mq_core.specs.Answers.{refusal_at};

    /// This refusal of a single event, as that of the event at an index of a list.
    pub fn at(self, index: u64) -> CoreRefusal
        ensures { result ≡ refusal_at index self }
    {
        match self {
            CoreRefusal::NotAllowed { .. } => CoreRefusal::NotAllowed { index },
            CoreRefusal::OutOfMemory => CoreRefusal::OutOfMemory,
        }
    }
}

impl From<OutOfMemory> for CoreRefusal {
    ghost from_gives = { λ _ e. e ≡ out_of_memory };

    fn from(_: OutOfMemory) -> Self {
        CoreRefusal::OutOfMemory
    }
}

impl From<AllocError> for CoreRefusal {
    ghost from_gives = { λ _ e. e ≡ out_of_memory };

    fn from(_: AllocError) -> Self {
        CoreRefusal::OutOfMemory
    }
}

impl<T: Drop> From<AllocFailed<T>> for CoreRefusal {
    ghost from_gives = { λ _ e. e ≡ out_of_memory };

    fn from(_: AllocFailed<T>) -> Self {
        CoreRefusal::OutOfMemory
    }
}
