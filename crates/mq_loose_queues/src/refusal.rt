// Why a commit is refused.
use mq_blocks::{OutOfMemory, TxNo};

/// Why a commit was not made, in the order in which the causes are looked for. All but the last draw nothing.
#[derive(Clone, Copy, PartialEq, Eq)]
pub enum LooseRefusal {
    /// The queue keeps the failure of this transaction.
    Stopped { tx: TxNo },
    /// It names more blocks than a transaction may.
    TooLarge { count: u64, limit: u64 },
    /// There is too little room in the queue's journal area.
    Area,
    /// There is too little room in the ring, until the queue is drained.
    Ring,
    OutOfMemory,
    /// The power went off once it was drawn; the queue keeps it as cut.
    Off { tx: TxNo },
}

impl From<OutOfMemory> for LooseRefusal {
    ghost use Rattle.std.specs.Prelude.{◌≡◌};
    ghost use Rattle.mq_loose_queues.specs.declared.refusal.LooseRefusal.TheVariants as refusal;

    ghost from_gives = { λ _ e. e ≡ refusal.OutOfMemory };

    fn from(_: OutOfMemory) -> Self {
        LooseRefusal::OutOfMemory
    }
}
