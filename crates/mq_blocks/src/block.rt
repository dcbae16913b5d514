// A block of 4,096 bytes.
ghost use Rattle.std.specs.Prelude.{◌≡◌, ◌<◌, ℕ, List, length, IfOk};
ghost use Rattle.std.specs.Borrow.{Lends, sem, Array, u8 as byte};
ghost use Rattle.mq_blocks.specs.Blocks.{zeros, filled};
ghost use Rattle.mq_blocks.specs.contracts.block.Block.{the_row};

use std::alloc::{AllocError, AllocFailed, Global};
use std::marker::Model;

/// Memory that a call needed could not be allocated.
#[derive(Clone, Copy, PartialEq, Eq)]
pub struct OutOfMemory;

impl From<AllocError> for OutOfMemory {
    fn from(_: AllocError) -> Self {
        OutOfMemory
    }
}

impl<T: Drop> From<AllocFailed<T>> for OutOfMemory {
    fn from(_: AllocFailed<T>) -> Self {
        OutOfMemory
    }
}

/// The 4,096 bytes of a logical block, on the heap.
#[derive(Drop)]
pub struct Block {
    bytes: Box<[u8; 4096]>,
}

impl Model for Block {
    ghost use Rattle.std.specs.Prelude.{ℕ, List};

    ghost Value = { List ℕ };

    ghost view = { λ b. b.bytes.value };
}

impl Block {
    /// A block of zeros.
    #[tactic(auto, unfolding(crate::specs::Blocks::zeros))]
    pub fn zeroed(alloc: Global) -> Result<Block, OutOfMemory>
        ensures { IfOk result (λ b. b ≡ zeros) }
    {
        Ok(Block {
            bytes: Box::new(alloc, [0; 4096])?,
        })
    }

    /// A block with the same bytes.
    pub fn copy(&self, alloc: Global) -> Result<Block, OutOfMemory>
        ensures { IfOk result (λ b. b ≡ self.now) }
    {
        Ok(Block {
            bytes: Box::new(alloc, *self.bytes)?,
        })
    }

    pub fn bytes(&self) -> &[u8]
        ensures is { result.now ≡ self.now }
        ensures whole { length self.now ≡ 4096 }
    {
        &*self.bytes
    }

    pub fn bytes_mut(&mut self) -> &mut [u8; 4096]
        ensures* writes_back { sem 𝓛 (Lends the_row (Array byte 4096) self.entry result (λ w. w)) }
        ensures is { result.now ≡ self.old }
    {
        &mut self.bytes
    }

    /// Copies the bytes of another block into this one.
    pub fn copy_from(&mut self, other: &Block)
        ensures { self.new ≡ other.now }
    {
        *self.bytes = *other.bytes;
    }

    /// Sets every byte to zero.
    #[tactic(auto, unfolding(crate::specs::Blocks::zeros))]
    pub fn clear(&mut self)
        ensures { self.new ≡ zeros }
    {
        *self.bytes = [0; 4096];
    }

    /// Sets every byte to this value.
    #[tactic(auto, unfolding(crate::specs::Blocks::filled))]
    pub fn fill(&mut self, byte: u8)
        ensures { self.new ≡ filled byte }
    {
        *self.bytes = [byte; 4096];
    }
}
