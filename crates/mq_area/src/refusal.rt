// Why a block is no descriptor.
use mq_blocks::OutOfMemory;

/// Why a block is not the descriptor that is expected: the first test that failed, and what was
/// found there.
#[derive(Clone, Copy, PartialEq, Eq)]
pub enum DescriptorRefusal {
    /// The first eight bytes are not the magic number.
    Magic { found: u64 },
    Version { found: u32 },
    Queue { found: u32 },
    Number { found: u64 },
    Place { found: u64 },
    /// The previous descriptor that it names is not before it.
    Previous { place: u64, number: u64 },
    /// There are too many blocks, or more copies than places before the descriptor.
    Counts { logged: u32, revoked: u32 },
    /// This entry, counted over both lists, is no home block, is not above the entry before it, or
    /// is both revoked and logged.
    List { index: u32, found: u64 },
    /// The byte at this offset, after the lists, is not zero.
    Rest { offset: u32 },
    OutOfMemory,
}

impl From<OutOfMemory> for DescriptorRefusal {
    ghost use Rattle.std.specs.Prelude.{◌≡◌};
    ghost use Rattle.mq_area.specs.declared.refusal.DescriptorRefusal.TheVariants.{OutOfMemory};

    ghost from_gives = { λ _ e. e ≡ OutOfMemory };

    fn from(_: OutOfMemory) -> Self {
        DescriptorRefusal::OutOfMemory
    }
}
