// Why recovery is refused.
use mq_area::DescriptorRefusal;
use mq_blocks::{BlockNo, OutOfMemory, QueueNo, TxNo};
use mq_drive::Off;
use mq_nvme::EntryRefusal;
use std::alloc::{AllocError, AllocFailed};

/// Why the chain of a queue can't be read.
#[derive(Clone, Copy, PartialEq, Eq)]
pub enum ChainRefusal {
    /// The head is above the doorbell or too far below it, or the doorbell is above its limit.
    Words,
    /// The entry before the head, or one from head to doorbell, is no request.
    Entry(EntryRefusal),
    /// The entry before the head, or before the doorbell, is not the last request of its transaction.
    Commit,
    /// The last request before the head does not write in the queue's own journal area.
    AreaPlace {
        lba: u64,
    },
    /// The block where the descriptor of this number must stand is not that descriptor.
    Descriptor {
        number: u64,
        cause: DescriptorRefusal,
    },
    /// The oldest place is at least the size of the area before the newest.
    Span {
        oldest: u64,
        newest: u64,
    },
    /// The number of a transaction is above its limit.
    Limit {
        number: u64,
    },
    OutOfMemory,
}

impl From<OutOfMemory> for ChainRefusal {
    ghost use Rattle.std.specs.Prelude.{◌≡◌};
    ghost use Rattle.mq_recover.specs.declared.refusal.ChainRefusal.TheVariants as refusal;

    ghost from_gives = { λ _ e. e ≡ refusal.OutOfMemory };

    fn from(_: OutOfMemory) -> Self {
        ChainRefusal::OutOfMemory
    }
}

impl<T: Drop> From<AllocFailed<T>> for ChainRefusal {
    ghost use Rattle.std.specs.Prelude.{◌≡◌};
    ghost use Rattle.mq_recover.specs.declared.refusal.ChainRefusal.TheVariants as refusal;

    ghost from_gives = { λ _ e. e ≡ refusal.OutOfMemory };

    fn from(_: AllocFailed<T>) -> Self {
        ChainRefusal::OutOfMemory
    }
}

/// Why an image can't be read.
#[derive(Clone, Copy, PartialEq, Eq)]
pub enum ImageFault {
    Bad {
        queue: QueueNo,
        cause: ChainRefusal,
    },
    /// The number stands in the chains of two queues.
    Twice {
        number: TxNo,
        first: QueueNo,
        second: QueueNo,
    },
    /// The base is above its limit.
    Limit {
        base: u64,
    },
    OutOfMemory,
}

impl From<OutOfMemory> for ImageFault {
    ghost use Rattle.std.specs.Prelude.{◌≡◌};
    ghost use Rattle.mq_recover.specs.declared.refusal.ImageFault.TheVariants as fault;

    ghost from_gives = { λ _ e. e ≡ fault.OutOfMemory };

    fn from(_: OutOfMemory) -> Self {
        ImageFault::OutOfMemory
    }
}

impl From<AllocError> for ImageFault {
    ghost use Rattle.std.specs.Prelude.{◌≡◌};
    ghost use Rattle.mq_recover.specs.declared.refusal.ImageFault.TheVariants as fault;

    ghost from_gives = { λ _ e. e ≡ fault.OutOfMemory };

    fn from(_: AllocError) -> Self {
        ImageFault::OutOfMemory
    }
}

impl<T: Drop> From<AllocFailed<T>> for ImageFault {
    ghost use Rattle.std.specs.Prelude.{◌≡◌};
    ghost use Rattle.mq_recover.specs.declared.refusal.ImageFault.TheVariants as fault;

    ghost from_gives = { λ _ e. e ≡ fault.OutOfMemory };

    fn from(_: AllocFailed<T>) -> Self {
        ImageFault::OutOfMemory
    }
}

/// Why recovery did not complete.
#[derive(Clone, Copy, PartialEq, Eq)]
pub enum RecoverRefusal {
    /// Nothing was changed.
    Image(ImageFault),
    Off,
    /// A home write ended with an error.
    Failed { block: BlockNo, status: u16 },
}

impl From<Off> for RecoverRefusal {
    ghost use Rattle.std.specs.Prelude.{◌≡◌};
    ghost use Rattle.mq_recover.specs.declared.refusal.RecoverRefusal.TheVariants as refusal;

    ghost from_gives = { λ _ e. e ≡ refusal.Off };

    fn from(_: Off) -> Self {
        RecoverRefusal::Off
    }
}

impl From<OutOfMemory> for RecoverRefusal {
    ghost use Rattle.std.specs.Prelude.{◌≡◌};
    ghost use Rattle.mq_recover.specs.declared.refusal.ImageFault.TheVariants as fault;
    ghost use Rattle.mq_recover.specs.declared.refusal.RecoverRefusal.TheVariants as refusal;

    ghost from_gives = { λ _ e. e ≡ refusal.Image fault.OutOfMemory };

    fn from(_: OutOfMemory) -> Self {
        RecoverRefusal::Image(ImageFault::OutOfMemory)
    }
}

impl From<ImageFault> for RecoverRefusal {
    ghost use Rattle.std.specs.Prelude.{◌≡◌};
    ghost use Rattle.mq_recover.specs.declared.refusal.RecoverRefusal.TheVariants as refusal;

    ghost from_gives = { λ fault e. e ≡ refusal.Image fault };

    fn from(fault: ImageFault) -> Self {
        RecoverRefusal::Image(fault)
    }
}
