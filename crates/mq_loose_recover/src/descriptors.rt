// The descriptors of the loose order.
use crate::read::read_loose_descriptor;
use mq_area::{Descriptor, DescriptorRefusal, Expect};
use mq_blocks::{Block, Geometry};
use mq_recover::Descriptors;
use std::alloc::Global;

/// The descriptors of the loose order, each without the numbers on which its transaction depends.
pub struct LooseDescriptors;

impl Descriptors for LooseDescriptors {
    ghost use Rattle.mq_loose_recover.specs.Reading.{accepts_loose, refuses_loose};

    ghost accepts = { accepts_loose };

    ghost refuses = { refuses_loose };

    fn read(
        alloc: Global,
        geometry: Geometry,
        at: &Expect,
        block: &Block,
        before: &Block,
    ) -> Result<Descriptor, DescriptorRefusal> {
        let read = read_loose_descriptor(alloc, geometry, at, block)?;
        Ok(read.descriptor)
    }

    fn obeys() {}
}
