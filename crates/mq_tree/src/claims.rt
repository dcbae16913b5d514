// A phase of a mount: which home blocks are used, and whether one is used twice.
ghost use Rattle.std.specs.Prelude.{◌≡◌, ◌<◌, ℕ, false, if◌then◌else◌, length, IfOk, MatchOption, slice_index_or, slice_set, Some, true};
ghost use Rattle.mq_blocks.specs.Blocks.{zeros};
ghost use Rattle.mq_blocks.specs.Geometry.{homes_of};
ghost use Rattle.mq_tree.specs.Clean.{AreApart, ArePointers, IsTable};
ghost use Rattle.mq_tree.specs.Corrupt.{IsSharedBlock};
ghost use Rattle.mq_tree.specs.Decoded.{inodes_in, volume_in};
ghost use Rattle.mq_tree.specs.Least.{IsLeast, lesser as lesser_of};
ghost use Rattle.mq_tree.specs.Volume.{is_taken};

use crate::findings::lesser;
use crate::pointers::{DIRECT, block_count, pointer_at};
use mq_blocks::{Block, Geometry, OutOfMemory};
use mq_layout::Inode;
use std::alloc::Global;

/// How home blocks are used: whether each is, and the least that is used twice.
#[derive(Drop)]
pub struct BlockUses {
    pub used: Vec<bool>,
    pub twice: Option<u32>,
}

impl BlockUses {
    /// Adds a use of a block.
    fn claim(&mut self, b: u32)
        requires { b < length self.old.used.items }
        ensures used { self.new.used.items ≡ slice_set self.old.used.items b true }
        ensures twice { self.new.twice ≡ if slice_index_or self.old.used.items b false
            then lesser_of self.old.twice (Some b)
            else self.old.twice }
    {
        if self.used[b as usize] {
            self.twice = lesser(self.twice, Some(b));
        }
        self.used[b as usize] = true;
    }
}

/// Which home blocks are used, and the least that is used twice.
pub fn claim_blocks(
    alloc: Global,
    geometry: Geometry,
    blocks: &[Option<Block>],
    zero: &Block,
    inodes: &[Inode],
) -> Result<BlockUses, OutOfMemory>
    requires zero { zero.now ≡ zeros }
    requires inodes { inodes.now ≡ inodes_in geometry blocks.now }
    requires table { IsTable geometry blocks.now }
    requires pointers { ArePointers geometry blocks.now }
    ensures size { IfOk result (λ found. length found.used.items ≡ homes_of geometry) }
    ensures used { IfOk result (λ found. (b : ℕ)
        → slice_index_or found.used.items b false ≡ is_taken (volume_in geometry blocks.now) b) }
    ensures twice { IfOk result (λ found. MatchOption found.twice
        (AreApart (volume_in geometry blocks.now))
        (IsLeast (IsSharedBlock geometry blocks.now))) }
{
    let used = vec![in alloc; false; geometry.homes() as usize]?;
    let mut uses = BlockUses { used, twice: None };
    for (i, inode) in inodes.iter().enumerate() {
        let count = block_count(inode);
        for place in 0..count {
            uses.claim(pointer_at(blocks, zero, inode, place));
        }
        if count > DIRECT {
            uses.claim(inode.indirect);
        }
    }
    Ok(uses)
}
