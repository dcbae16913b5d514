// Files of version 1: the words of their queues, and their rings, which move to today's depth.
ghost use Rattle.std.specs.Prelude.{ℕ, ◌≡◌, ◌≤◌, ◌<◌, ◌+◌, ◌^◌, length, IfOk, slice_index_or, slice_set};
ghost use Rattle.std.specs.List.{All};
ghost use Rattle.mq_blocks.specs.Journal.{no_image};
ghost use Rattle.mq_blocks.specs.Limits.{depth};
ghost use Rattle.mq_image.specs.Faults.{Finds, are_old_words, doorbell_in, head_in, old_words_fault};
ghost use Rattle.mq_image.specs.File.{rings_end};
ghost use Rattle.mq_image.specs.Old.{AreMoved, IsOldPort, count_of, moved, moved_entry, moved_slots};

use crate::fault::FileFault;
use crate::header::check;
use crate::version::{OLD_DEPTH, OLD_VERSION, end_of_rings};
use mq_blocks::bytes::u64_at;
use mq_blocks::{OutOfMemory, RING_DEPTH};
use mq_drive::PortImage;
use mq_nvme::Entry;
use std::alloc::Global;

/// Refuses the first of the queues whose words are not those of a ring of version 1.
#[tactic(auto, unfolding(crate::specs::Faults::old_words_fault))]
pub fn check_words(file: &[u8], queues: u32) -> Result<(), FileFault>
    requires few { queues ≤ 16 }
    requires room { rings_end 1 queues ≤ length file.now }
    ensures { Finds (old_words_fault queues 0 file.now) result }
{
    for queue in 0..queues {
        let at = end_of_rings(OLD_VERSION, queue);
        let passes = are_words(u64_at(file, at + 8), u64_at(file, at));
        check(passes, FileFault::OldWords { queue })?;
    }
    Ok(())
}

/// Whether a ring of version 1 can have this head and doorbell.
fn are_words(head: u64, doorbell: u64) -> bool
    ensures { result ≡ are_old_words head doorbell }
{
    head <= doorbell && doorbell - head < u64::from(OLD_DEPTH) && doorbell <= 1 << 63
}

/// The count from `first` on that has this slot in a ring of today's depth.
fn count_at(first: u64, slot: u32) -> u64
    requires few { first ≤ 2 ^ 63 }
    requires low { slot < 4096 }
    ensures { result ≡ count_of first slot }
{
    let depth = u64::from(RING_DEPTH);
    first + (u64::from(slot) + depth - first % depth) % depth
}

/// What a slot of today's ring holds.
fn entry_in(port: &PortImage, slot: u32) -> Entry
    requires old { IsOldPort port.now }
    requires low { slot < 4096 }
    ensures { result ≡ moved_entry port.now.head port.now.doorbell port.now.slots slot }
{
    let count = count_at(port.head.saturating_sub(1), slot);
    if count < port.doorbell {
        return port.slots[(count % u64::from(OLD_DEPTH)) as usize];
    }
    Entry::zeroed()
}

/// The slots of today's ring.
fn slots_of(alloc: Global, port: &PortImage) -> Result<Vec<Entry>, OutOfMemory>
    requires { IsOldPort port.now }
    ensures { IfOk result (λ v. v.items ≡ moved_slots port.now.head port.now.doorbell
        port.now.slots depth) }
{
    let mut slots = Vec::with_capacity(alloc, RING_DEPTH as usize)?;
    for slot in 0..RING_DEPTH {
        slots.push(entry_in(port, slot))?;
    }
    Ok(slots)
}

fn move_ring(alloc: Global, port: &mut PortImage) -> Result<(), OutOfMemory>
    requires { IsOldPort port.old }
    ensures { IfOk result (λ _. port.new ≡ moved port.old) }
{
    let slots = slots_of(alloc, port)?;
    port.slots = slots;
    Ok(())
}

fn move_ring_of(alloc: Global, ports: &mut Vec<PortImage>, queue: usize) -> Result<(), OutOfMemory>
    requires inside { queue < length ports.old.items }
    requires old { IsOldPort (slice_index_or ports.old.items queue no_image) }
    ensures { IfOk result (λ _. ports.new.items ≡ slice_set ports.old.items queue
        (moved (slice_index_or ports.old.items queue no_image))) }
{
    move_ring(alloc, &mut ports[queue])
}

/// Moves the rings of the queues' ports, which come first, to today's depth.
pub fn move_rings(alloc: Global, ports: &mut Vec<PortImage>, queues: u32) -> Result<(), OutOfMemory>
    requires few { queues ≤ length ports.old.items }
    requires old { (k : ℕ) → k < queues → IsOldPort (slice_index_or ports.old.items k no_image) }
    ensures { IfOk result (λ _. AreMoved queues ports.old.items ports.new.items) }
{
    for queue in 0..queues {
        move_ring_of(alloc, ports, queue as usize)?;
    }
    Ok(())
}
