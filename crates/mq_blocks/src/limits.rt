// How much a ring and a descriptor hold, and which version of descriptors is written.
ghost use Rattle.std.specs.Prelude.{◌≡◌, ◌≤◌};
ghost use Rattle.mq_blocks.specs.Descriptor.{further_for};

/// The number of slots of a queue's ring in persistent memory.
pub const RING_DEPTH: u32 = 4096;

/// The number of slots of a ring that may be in use at once: the one before the head is never
/// written.
pub const USABLE_DEPTH: u32 = 4095;

/// The most blocks that a descriptor lists on any drive, logged and revoked together.
pub const LIST_LIMIT: u32 = 2000;

/// The version of the descriptors that are written.
pub const DESCRIPTOR_VERSION: u32 = 2;

/// The entries of a descriptor's lists that stand in its last block; a further block has the others.
pub const ENTRIES_IN_ONE: u64 = 1010;

/// The number of further blocks of a descriptor that lists so many blocks.
#[tactic(auto, unfolding(crate::specs::Descriptor::further_for))]
pub fn further_blocks(count: u64) -> u64
    ensures is { result ≡ further_for count }
    ensures few { result ≤ 1 }
{
    if ENTRIES_IN_ONE < count {
        return 1;
    }
    0
}
