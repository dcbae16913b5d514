// The tests of a descriptor's lists and of the bytes after them.
ghost use Rattle.std.specs.Prelude.{◌≡◌, ◌≤◌, ◌<◌, ◌+◌, ◌*◌, ◌++◌, ℕ, length, slice_index, IsTrue, ◌↔◌, MatchOption, MatchResult};
ghost use Rattle.mq_blocks.specs.Limits.{list_limit};
ghost use Rattle.mq_blocks.specs.Descriptor.{AreRising, further_for};
ghost use Rattle.mq_area.specs.Reading.{StopsAt, GoodRevoked, IsZero, IsListRefusal, IsRestRefusal, RefusesRest};

use crate::header::{ENTRIES, HEADER};
use crate::refusal::DescriptorRefusal;
use mq_blocks::BlockNo;

/// The first entry of a list that is no home block or is not above the entry before it.
fn first_unordered(homes: u32, list: &[BlockNo]) -> Option<usize>
    ensures { MatchOption result (AreRising 0 homes list.now) (StopsAt (AreRising 0 homes) list.now) }
{
    let mut low = 0;
    for (i, b) in list.iter().enumerate() {
        if b.0 < low || b.0 >= homes {
            return Some(i);
        }
        low = b.0 + 1;
    }
    None
}

/// The first entry of a rising list, from `from` on, that is not below `bound`, or the end.
fn skip_below(list: &[BlockNo], from: usize, bound: u32) -> usize
    requires { from ≤ length list.now }
    ensures low { from ≤ result }
    ensures high { result ≤ length list.now }
    ensures passed { (k : ℕ) → from ≤ k → k < result → slice_index list.now k < bound }
    ensures stop { result < length list.now → bound ≤ slice_index list.now result }
{
    for k in from..list.len() {
        let b = list[k];
        if b.0 >= bound {
            return k;
        }
    }
    list.len()
}

/// Whether this block stands at this place of a list.
fn is_at(list: &[BlockNo], place: usize, b: u32) -> bool
    ensures { IsTrue result ↔ ((place < length list.now) × (slice_index list.now place ≡ b)) }
{
    if place >= list.len() {
        return false;
    }
    let found = list[place];
    found.0 == b
}

/// The first entry of the revoked blocks that is no home block, is not above the entry before it,
/// or is logged. Both lists rise, so one pass over the two is enough.
fn first_unfit(homes: u32, logged: &[BlockNo], revoked: &[BlockNo]) -> Option<usize>
    requires { AreRising 0 homes logged.now }
    ensures { MatchOption result (GoodRevoked homes logged.now revoked.now)
        (StopsAt (GoodRevoked homes logged.now) revoked.now) }
{
    let mut low = 0;
    let mut passed = 0;
    for (i, b) in revoked.iter().enumerate() {
        if b.0 < low || b.0 >= homes {
            return Some(i);
        }
        passed = skip_below(logged, passed, b.0);
        if is_at(logged, passed, b.0) {
            return Some(i);
        }
        low = b.0 + 1;
    }
    None
}

/// Tests the two lists entry by entry, and names the first that is not allowed there.
pub fn check_lists(
    homes: u32,
    logged: &[BlockNo],
    revoked: &[BlockNo],
) -> Result<(), DescriptorRefusal>
    requires { length logged.now + length revoked.now ≤ list_limit }
    ensures { MatchResult result (λ _. AreRising 0 homes logged.now
        × GoodRevoked homes logged.now revoked.now) (IsListRefusal homes logged.now revoked.now) }
{
    if let Some(k) = first_unordered(homes, logged) {
        let b = logged[k];
        return Err(DescriptorRefusal::List {
            index: k as u32,
            found: u64::from(b.0),
        });
    }
    if let Some(k) = first_unfit(homes, logged, revoked) {
        let b = revoked[k];
        return Err(DescriptorRefusal::List {
            index: (logged.len() + k) as u32,
            found: u64::from(b.0),
        });
    }
    Ok(())
}

/// The first byte of a block from `from` on that is not zero.
fn first_other(block: &[u8], from: usize) -> Option<usize>
    requires whole { length block.now ≡ 4096 }
    requires inside { from ≤ 4096 }
    ensures { MatchOption result (IsZero from 4096 block.now) (RefusesRest from 4096 block.now) }
{
    for k in from..block.len() {
        if block[k] != 0 {
            return Some(k);
        }
    }
    None
}

/// Tests that all bytes after so many entries are zero, and names the first that is not.
pub fn check_rest(block: &[u8], before: &[u8], count: usize) -> Result<(), DescriptorRefusal>
    requires whole { length block.now ≡ 4096 }
    requires further { length before.now ≡ 4096 }
    requires inside { count < 2034 }
    ensures { MatchResult result
        (λ _. IsZero (56 + 4 * count) (4096 * (further_for count + 1)) (block.now ++ before.now))
        (IsRestRefusal (56 + 4 * count) (4096 * (further_for count + 1)) (block.now ++ before.now)) }
{
    if count <= ENTRIES {
        return match first_other(block, HEADER + 4 * count) {
            Some(k) => Err(DescriptorRefusal::Rest { offset: k as u32 }),
            None => Ok(()),
        };
    }
    match first_other(before, 4 * (count - ENTRIES)) {
        Some(k) => Err(DescriptorRefusal::Rest {
            offset: (block.len() + k) as u32,
        }),
        None => Ok(()),
    }
}

/// Each item is a byte.
pub fn are_bytes(bytes: &[u8])
    ensures { (k : ℕ) → slice_index bytes.now k < 256 }
{}
