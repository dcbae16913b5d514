// The buckets as they are between two operations of a group.
ghost use Rattle.std.specs.Prelude.{◌≡◌, ◌≢◌, ℕ, IfOk, OnOk, Some, None};
ghost use Rattle.std.specs.Option.{option_copied};
ghost use Rattle.mq_blocks.specs.Blocks.{content};
ghost use Rattle.mq_kv_entries.specs.Groups.{held_map, joined};
ghost use Rattle.mq_sessions.specs.Pages.{held_pages};
ghost use Rattle.mq_kv_entries.specs.Working.{IsKept, IsPut, changed_of, held_of, now};

use mq_blocks::{Block, BlockNo, OutOfMemory};
use mq_pages::Held;
use std::alloc::Global;
use std::collections::BTreeMap;

/// The buckets that a session holds, and over them those that the operations before have changed.
#[derive(Drop)]
pub(crate) struct Working<'a> {
    pub(crate) held: &'a Held,
    pub(crate) changed: BTreeMap<u32, Block>,
}

impl<'a> Working<'a> {
    /// The held buckets, of which none is changed yet.
    #[tactic(auto, unfolding(crate::specs::Working::changed_of, crate::specs::Working::held_of))]
    pub(crate) fn new(alloc: Global, held: &'a Held) -> Working<'a>
        ensures changed { (b : ℕ) → changed_of result b ≡ None }
        ensures held { (b : ℕ) → held_of result b ≡ held_pages held.now.cells b }
    {
        Working {
            held,
            changed: BTreeMap::new(alloc),
        }
    }

    // A bucket as it was before the group.
    #[tactic(auto, unfolding(crate::specs::Working::held_of))]
    fn before(&self, b: BlockNo) -> Option<&Block>
        ensures { option_copied result ≡ joined (held_of self.now b) }
    {
        match self.held.get(b) {
            Some(cell) => match &cell.content {
                Some(block) => Some(block),
                None => None,
            },
            None => None,
        }
    }

    /// A bucket as it is now. One that is not held counts as absent.
    #[tactic(auto, unfolding(crate::specs::Working::changed_of))]
    pub(crate) fn bucket(&self, b: BlockNo) -> Option<&Block>
        ensures { option_copied result ≡ now self.now b }
    {
        if let Some(block) = self.changed.get(&b.0) {
            return Some(block);
        }
        self.before(b)
    }

    /// Puts the content of a bucket.
    #[tactic(auto, unfolding(crate::specs::Working::changed_of, crate::specs::Working::held_of))]
    pub(crate) fn put(&mut self, b: BlockNo, block: Block) -> Result<(), OutOfMemory>
        ensures put { OnOk result (IsPut self.old self.new b block) }
    {
        self.changed.insert(b.0, block)?;
        Ok(())
    }

    /// Takes out a bucket, to be changed and put again: the content that was put, or a copy of that before the
    /// group.
    #[tactic(auto, unfolding(crate::specs::Working::changed_of, crate::specs::Working::held_of))]
    pub(crate) fn lift(&mut self, alloc: Global, b: BlockNo) -> Result<Block, OutOfMemory>
        ensures content { IfOk result (λ block. block ≡ content (now self.old b)) }
        ensures rest { OnOk result (IsKept self.old self.new b) }
    {
        if let Some(block) = self.changed.remove(&b.0) {
            return Ok(block);
        }
        match self.before(b) {
            Some(block) => block.copy(alloc),
            None => Block::zeroed(alloc),
        }
    }
}
