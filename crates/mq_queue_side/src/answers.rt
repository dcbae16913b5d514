// What the calls of a side answer, and those of a session above it.
ghost use Rattle.std.specs.Prelude.{◌≡◌};

use mq_blocks::{BlockNo, TxNo};
use mq_drive::Off;

/// Why a transaction stopped its queue.
#[derive(Clone, Copy, PartialEq, Eq)]
pub enum Why {
    /// A command of it ended with this status.
    Status(u16),
    /// Its send was cut.
    Off,
}

/// Why the drive did not execute a call.
#[derive(Clone, Copy, PartialEq, Eq)]
pub enum Cause {
    /// The power is off.
    Off,
    /// A command failed in this call. Of the transactions with a failed command, this is the one with
    /// the smallest number, with the first status that was seen of it.
    Failed { tx: TxNo, status: u16 },
    /// A home write of this block failed.
    FailedHome { block: BlockNo, status: u16 },
    /// No command failed in this call, and this failure was kept.
    Stopped { tx: TxNo, why: Why },
}

impl From<Off> for Cause {
    ghost use Rattle.mq_queue_side.specs.declared.answers.Cause.TheVariants as cause;

    ghost from_gives = { λ _ e. e ≡ cause.Off };

    fn from(_: Off) -> Self {
        Cause::Off
    }
}

/// Whether a transaction has room on its queue.
#[derive(Clone, Copy, PartialEq, Eq)]
pub enum Fit {
    Yes,
    /// There is too little room in the ring, until the queue is drained.
    Ring,
    /// There is too little room in the journal area, until a checkpoint raises the base.
    Area,
}

/// Why a group was refused.
#[derive(Clone, Copy, PartialEq, Eq)]
pub struct Refusal {
    pub cause: CallCause,
    /// The number that the group had drawn. Its transaction may or may not survive a power cut.
    pub drawn: Option<TxNo>,
}

/// The cause of a refusal.
#[derive(Clone, Copy, PartialEq, Eq)]
pub enum CallCause {
    OutOfMemory,
    /// The group writes more blocks than one transaction may.
    TooLarge { count: u32, limit: u32 },
    /// A request of a group that may only read would change something. The index is that of the first
    /// such request, counted from 0.
    Changes { index: u32 },
    /// A port refused.
    Drive(Cause),
}
