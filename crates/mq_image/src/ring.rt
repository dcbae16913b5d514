// A queue's words and ring in a file.
ghost use Rattle.std.specs.Prelude.{◌≡◌, ◌≤◌, ◌<◌, ◌+◌, ◌*◌, ◌^◌, ◌++◌, ℕ, [], All, length, IfOk};
ghost use Rattle.std.specs.List.{flat_map};
ghost use Rattle.mq_blocks.specs.Windows.{window, number_at, Shows};
ghost use Rattle.mq_nvme.specs.Dwords.{AreDwords, dword_bytes};

use mq_blocks::OutOfMemory;
use mq_blocks::bytes::u64_at;
use mq_nvme::Entry;
use std::alloc::Global;

fn entry_at(file: &[u8], at: usize) -> Entry
    requires { at + 64 ≤ length file.now }
    ensures dwords { AreDwords 16 result }
    ensures bytes { dword_bytes result ≡ window file.now at 64 }
{
    let mut bytes = [0; 64];
    bytes.copy_from_slice(&file[at..at + 64]);
    Entry::from_bytes(&bytes)
}

/// The slots of a ring that stand from `at` on.
pub fn read_slots(
    alloc: Global,
    file: &[u8],
    at: usize,
    depth: u32,
) -> Result<Vec<Entry>, OutOfMemory>
    requires { at + 64 * depth ≤ length file.now }
    ensures count { IfOk result (λ v. length v.items ≡ depth) }
    ensures dwords { IfOk result (λ v. All (λ e. AreDwords 16 e) v.items) }
    ensures bytes { IfOk result (λ v. flat_map dword_bytes v.items ≡ window file.now at (64 * depth)) }
{
    let mut slots = Vec::with_capacity(alloc, depth as usize)?;
    for slot in 0..depth as usize {
        slots.push(entry_at(file, at + 64 * slot))?;
    }
    Ok(slots)
}
