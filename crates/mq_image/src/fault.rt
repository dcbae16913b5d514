// Why bytes are no image.
use mq_blocks::{GeometryRefusal, OutOfMemory};
use std::alloc::{AllocError, AllocFailed};

/// Why bytes are not the file of an image: the first test that failed, and what was found there.
#[derive(Clone, Copy, PartialEq, Eq)]
pub enum FileFault {
    /// The file is too short for its parts, as far as their lengths are known.
    Short { need: u64, have: u64 },
    /// The first eight bytes are not the magic number.
    Magic,
    Version { found: u32 },
    Geometry(GeometryRefusal),
    /// The bytes at offset 28 are not zero.
    Reserved { found: u32 },
    /// There are more blocks than the namespace has.
    Count { found: u32 },
    /// The Lba of this block is not above the one before, or is not in the namespace.
    Order { index: u32 },
    /// This block is all zeros.
    Zero { lba: u32 },
    /// This many bytes follow the last block.
    Extra { bytes: u64 },
    /// The doorbell and head of this queue, in a file of version 1, are not those of a ring of 1,024 slots.
    OldWords { queue: u32 },
    OutOfMemory,
}

impl From<GeometryRefusal> for FileFault {
    ghost use Rattle.std.specs.Prelude.{◌≡◌};
    ghost use Rattle.mq_image.specs.declared.fault.FileFault.TheVariants.{Geometry};

    ghost from_gives = { λ refusal e. e ≡ Geometry refusal };

    fn from(refusal: GeometryRefusal) -> Self {
        FileFault::Geometry(refusal)
    }
}

impl From<OutOfMemory> for FileFault {
    ghost use Rattle.std.specs.Prelude.{◌≡◌};
    ghost use Rattle.mq_image.specs.declared.fault.FileFault.TheVariants.{OutOfMemory};

    ghost from_gives = { λ _ e. e ≡ OutOfMemory };

    fn from(_: OutOfMemory) -> Self {
        FileFault::OutOfMemory
    }
}

impl From<AllocError> for FileFault {
    ghost use Rattle.std.specs.Prelude.{◌≡◌};
    ghost use Rattle.mq_image.specs.declared.fault.FileFault.TheVariants.{OutOfMemory};

    ghost from_gives = { λ _ e. e ≡ OutOfMemory };

    fn from(_: AllocError) -> Self {
        FileFault::OutOfMemory
    }
}

impl<T: Drop> From<AllocFailed<T>> for FileFault {
    ghost use Rattle.std.specs.Prelude.{◌≡◌};
    ghost use Rattle.mq_image.specs.declared.fault.FileFault.TheVariants.{OutOfMemory};

    ghost from_gives = { λ _ e. e ≡ OutOfMemory };

    fn from(_: AllocFailed<T>) -> Self {
        FileFault::OutOfMemory
    }
}
