// The descriptors of one kind of journal.
ghost use Rattle.std.specs.Prelude.{◌≡◌, ℕ, List, length, IfOk, IfErr};
ghost use Rattle.mq_area.specs.Reading.{further_of, header_of};

use mq_area::{Descriptor, DescriptorRefusal, Expect, read_descriptor};
use mq_blocks::{Block, Geometry};
use std::alloc::Global;

/// Which blocks are descriptors of one kind of journal, and why others are refused.
pub trait Descriptors {
    ghost use Rattle.mq_recover.specs.Reader.{Accepting, IsReader, Refusing};

    ghost accepts: { Accepting };

    ghost refuses: { Refusing };

    /// The descriptor whose last block this is, where it is the one that is expected, or why it is not. The
    /// block before it may be any where the counts in the block don't say that its lists go on there.
    fn read(
        alloc: Global,
        geometry: Geometry,
        at: &Expect,
        block: &Block,
        before: &Block,
    ) -> Result<Descriptor, DescriptorRefusal>
        requires { length block.now ≡ 4096 }
        ensures sound { (b : List ℕ)
            → (further_of (header_of block.now) ≡ 1 → before.now ≡ b)
            → IfOk result (accepts geometry at.now block.now b) }
        ensures refused { (b : List ℕ)
            → (further_of (header_of block.now) ≡ 1 → before.now ≡ b)
            → IfErr result (refuses geometry at.now block.now b) };

    /// The definitions of this trait obey the laws of a reader. A call does nothing.
    fn obeys()
        ensures { IsReader accepts refuses };
}

/// The journal's descriptors.
pub struct JournalDescriptors;

impl Descriptors for JournalDescriptors {
    ghost use Rattle.mq_area.specs.Reading.{Accepts, Refuses};

    ghost accepts = { Accepts };

    ghost refuses = { Refuses };

    fn read(
        alloc: Global,
        geometry: Geometry,
        at: &Expect,
        block: &Block,
        before: &Block,
    ) -> Result<Descriptor, DescriptorRefusal> {
        read_descriptor(alloc, geometry, at, block, before)
    }

    fn obeys() {}
}
