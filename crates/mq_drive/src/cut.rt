// What a cut of the power leaves of what is not certain.
ghost use Rattle.std.specs.Prelude.{◌≡◌, ◌≢◌, ◌<◌, ◌≤◌, ◌-◌, ◌%◌, ℕ, List, [], ◌∷◌, length, true, false, All, Option, None, slice_index_or};
ghost use Rattle.mq_blocks.specs.Limits.{depth};
ghost use Rattle.std.specs.Option.{ForSome, option_to_list};
ghost use Rattle.mq_blocks.specs.declared.command.Command as command;
ghost use Rattle.mq_drive.specs.Choices.{torn_slots, torn_block, torn_blocks, writes_of, by_count};
ghost use Rattle.mq_drive.specs.Slots.{index_in};

use crate::blocks::Blocks;
use crate::extent::{Extent, block_index};
use crate::random::either_entry;
use crate::store::{put_slot, slot_at};
use mq_blocks::{Command, HomeWrite, RING_DEPTH};
use mq_nvme::Entry;
use rand_pcg::Lcg128Xsl64;
use std::collections::VecDeque;

/// For each slot of the counts from `from` up to `to`, in order, chooses the flushed bytes, the
/// staged ones, or any.
pub fn tear_slots(
    flushed: &mut Vec<Entry>,
    staged: &Vec<Entry>,
    from: u64,
    to: u64,
    rng: &mut Lcg128Xsl64,
)
    requires same { length flushed.old.items ≡ length staged.now.items }
    requires ring { from < to → length staged.now.items ≡ depth }
    ensures len { length flushed.new.items ≡ length flushed.old.items }
    ensures kept { (k : ℕ)
        → ((c : ℕ) → from ≤ c → c < to → c % depth ≢ k)
        → slice_index_or flushed.new.items k [] ≡ slice_index_or flushed.old.items k [] }
    ensures chosen { (flushed.new.items, rng.new) ≡ torn_slots (to - from) from staged.now.items
        flushed.old.items rng.old }
{
    for count in from..to {
        let k = (count % RING_DEPTH as u64) as usize;
        let entry = either_entry(rng, slot_at(flushed, k), slot_at(staged, k));
        put_slot(flushed, k, entry);
    }
}

/// For each block that a posted command writes or that the failed command leaves uncertain, by count,
/// chooses what it holds.
pub fn tear_commands(
    blocks: &mut Blocks,
    area: Extent,
    homes: Extent,
    posted: VecDeque<Command>,
    failed: Option<Command>,
    rng: &mut Lcg128Xsl64,
)
    requires own { All (λ c. (area.first ≤ c.lba)
        × (index_in area.first area.size homes.first c.lba < length blocks.old.stored.items)) posted.items }
    requires failed { ForSome failed (λ c. (area.first ≤ c.lba)
        × (index_in area.first area.size homes.first c.lba < length blocks.old.stored.items)) }
    requires doubt { ForSome failed (λ c. slice_index_or blocks.old.certain.items
        (index_in area.first area.size homes.first c.lba) false ≡ false) }
    ensures len { length blocks.new.stored.items ≡ length blocks.old.stored.items }
    ensures certain { blocks.new.certain.items ≡ blocks.old.certain.items }
    ensures kept { (k : ℕ)
        → All (λ c. index_in area.first area.size homes.first c.lba ≢ k) posted.items
        → slice_index_or blocks.old.certain.items k false ≡ true
        → slice_index_or blocks.new.stored.items k None ≡ slice_index_or blocks.old.stored.items k None }
    ensures chosen { (blocks.new.stored.items, rng.new) ≡ torn_blocks
        (index_in area.first area.size homes.first)
        (writes_of (by_count (option_to_list failed) posted.items)) blocks.old.stored.items rng.old }
{
    let mut posted = posted;
    let mut failed = failed;
    while let Some(command) = posted.pop_front() {
        failed = tear_earlier(blocks, area, homes, failed, command.count, rng);
        let index = block_index(area, homes, command.lba);
        blocks.tear(index, command.block, rng);
    }
    tear_failed(blocks, area, homes, failed, rng);
}

// Chooses what the failed command leaves, if it stands before this count, or gives it back.
fn tear_earlier(
    blocks: &mut Blocks,
    area: Extent,
    homes: Extent,
    failed: Option<Command>,
    count: u64,
    rng: &mut Lcg128Xsl64,
) -> Option<Command>
    requires own { ForSome failed (λ c. (area.first ≤ c.lba)
        × (index_in area.first area.size homes.first c.lba < length blocks.old.stored.items)) }
    requires doubt { ForSome failed (λ c. slice_index_or blocks.old.certain.items
        (index_in area.first area.size homes.first c.lba) false ≡ false) }
    ensures left { ForSome result (λ c. failed ≡ Some c) }
    ensures len { length blocks.new.stored.items ≡ length blocks.old.stored.items }
    ensures certain { blocks.new.certain.items ≡ blocks.old.certain.items }
    ensures kept { (k : ℕ)
        → slice_index_or blocks.old.certain.items k false ≡ true
        → slice_index_or blocks.new.stored.items k None ≡ slice_index_or blocks.old.stored.items k None }
    ensures chosen { (c : command.Command) (posted : List command.Command)
        → c.count ≡ count
        → torn_blocks (index_in area.first area.size homes.first)
        (writes_of (c ∷ by_count (option_to_list result) posted)) blocks.new.stored.items rng.new ≡ torn_blocks
        (index_in area.first area.size homes.first)
        (writes_of (by_count (option_to_list failed) (c ∷ posted))) blocks.old.stored.items rng.old }
{
    match failed {
        Some(command) if command.count < count => {
            let index = block_index(area, homes, command.lba);
            blocks.tear(index, command.block, rng);
            None
        }
        failed => failed,
    }
}

// Chooses what the failed command leaves, if there is one.
fn tear_failed(
    blocks: &mut Blocks,
    area: Extent,
    homes: Extent,
    failed: Option<Command>,
    rng: &mut Lcg128Xsl64,
)
    requires own { ForSome failed (λ c. (area.first ≤ c.lba)
        × (index_in area.first area.size homes.first c.lba < length blocks.old.stored.items)) }
    requires doubt { ForSome failed (λ c. slice_index_or blocks.old.certain.items
        (index_in area.first area.size homes.first c.lba) false ≡ false) }
    ensures len { length blocks.new.stored.items ≡ length blocks.old.stored.items }
    ensures certain { blocks.new.certain.items ≡ blocks.old.certain.items }
    ensures kept { (k : ℕ)
        → slice_index_or blocks.old.certain.items k false ≡ true
        → slice_index_or blocks.new.stored.items k None ≡ slice_index_or blocks.old.stored.items k None }
    ensures chosen { (blocks.new.stored.items, rng.new) ≡ torn_blocks
        (index_in area.first area.size homes.first) (writes_of (option_to_list failed))
        blocks.old.stored.items rng.old }
{
    if let Some(command) = failed {
        let index = block_index(area, homes, command.lba);
        blocks.tear(index, command.block, rng);
    }
}

/// For the block of a home write that is uncertain, chooses what it holds.
pub fn tear_home(
    blocks: &mut Blocks,
    area: Extent,
    homes: Extent,
    write: Option<HomeWrite>,
    rng: &mut Lcg128Xsl64,
)
    requires own { ForSome write (λ w. (area.first ≤ w.lba)
        × (index_in area.first area.size homes.first w.lba < length blocks.old.stored.items)) }
    requires doubt { ForSome write (λ w. slice_index_or blocks.old.certain.items
        (index_in area.first area.size homes.first w.lba) false ≡ false) }
    ensures len { length blocks.new.stored.items ≡ length blocks.old.stored.items }
    ensures certain { blocks.new.certain.items ≡ blocks.old.certain.items }
    ensures kept { (k : ℕ)
        → slice_index_or blocks.old.certain.items k false ≡ true
        → slice_index_or blocks.new.stored.items k None ≡ slice_index_or blocks.old.stored.items k None }
    ensures chosen { (blocks.new.stored.items, rng.new) ≡ torn_blocks
        (index_in area.first area.size homes.first) (option_to_list write)
        blocks.old.stored.items rng.old }
{
    if let Some(write) = write {
        let index = block_index(area, homes, write.lba);
        blocks.tear(index, write.block, rng);
    }
}
