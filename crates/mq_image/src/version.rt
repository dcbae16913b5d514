// The versions of a file, and the lengths of the rings in it.
ghost use Rattle.std.specs.Prelude.{◌≡◌, ◌≤◌};
ghost use Rattle.mq_image.specs.File.{is_version, ring_depth, rings_end};

use mq_blocks::RING_DEPTH;

/// The number of bytes before the rings.
const HEADER: usize = 40;

/// The number of bytes of a queue's words and ring, and that in version 1.
const RING: usize = 262_160;

const OLD_RING: usize = 65_552;

/// The version that is written.
pub const VERSION: u32 = 2;

/// The version before it, which is read too.
pub const OLD_VERSION: u32 = 1;

/// The number of slots of a ring of version 1.
pub const OLD_DEPTH: u32 = 1024;

/// Whether files of this version are read.
pub fn is_known(version: u32) -> bool
    ensures { result ≡ is_version version }
{
    version == OLD_VERSION || version == VERSION
}

/// The number of slots of a ring in a file of this version.
#[tactic(auto, unfolding(crate::specs::File::ring_depth))]
pub fn slots_in(version: u32) -> u32
    ensures { result ≡ ring_depth version }
{
    if version == OLD_VERSION {
        OLD_DEPTH
    } else {
        RING_DEPTH
    }
}

/// Where the words and rings of so many queues end in a file of this version.
#[tactic(auto, unfolding(crate::specs::File::rings_end))]
pub fn end_of_rings(version: u32, queues: u32) -> usize
    requires few { queues ≤ 16 }
    ensures is { result ≡ rings_end version queues }
    ensures most { result ≤ 4194600 }
{
    if version == OLD_VERSION {
        HEADER + OLD_RING * queues as usize
    } else {
        HEADER + RING * queues as usize
    }
}
