// Whether a block is a bucket.
ghost use Rattle.std.specs.Prelude.{◌≡◌, ◌≢◌, ◌≤◌, ◌<◌, ◌+◌, ◌^◌, MatchOption, MatchResult, length, drop, slice_index};
ghost use Rattle.mq_blocks.specs.Windows.{number_at};
ghost use Rattle.mq_kv_buckets.specs.Buckets.{AreZeros, BeginWith, IsFirstBad, IsFormed, IsNext};
ghost use Rattle.mq_kv_buckets.specs.Records.{Record};

use crate::record::{Lengths, key_at, lengths_at};
use mq_blocks::Block;
use std::cmp::Ordering;

// The key of the record with these lengths, where it is a good one and its key is above the last one.
fn good_key<'a>(bytes: &'a [u8], at: usize, lengths: Lengths, last: &[u8]) -> Option<&'a [u8]>
    requires whole { length bytes.now ≡ 4096 }
    requires at { at ≤ 4096 }
    requires key { lengths.key ≡ number_at 2 at bytes.now }
    requires value { lengths.value ≡ number_at 2 (at + 2) bytes.now }
    requires some { 1 ≤ lengths.key }
    requires key_low { lengths.key < 2 ^ 16 }
    requires value_low { lengths.value < 2 ^ 16 }
    ensures { MatchOption result ((r : Record) → BeginWith last.now (drop at bytes.now) r → ⊥)
        (λ key. IsNext last.now (drop at bytes.now) key.now (4 + lengths.key + lengths.value)) }
{
    if !lengths.are_good(bytes.len() - at) {
        return None;
    }
    let key = key_at(bytes, at, lengths);
    match last.cmp(key) {
        Ordering::Less => Some(key),
        _ => None,
    }
}

// Refuses the first byte from `from` on that is not 0.
fn check_zeros(bytes: &[u8], from: usize) -> Result<(), u32>
    requires whole { length bytes.now ≡ 4096 }
    requires from { from ≤ 4096 }
    ensures { MatchResult result (λ _. AreZeros bytes.now from 4096) (λ k. (from ≤ k) × (k < 4096)
        × AreZeros bytes.now from k × (slice_index bytes.now k ≢ 0)) }
{
    for k in from..bytes.len() {
        if bytes[k] != 0 {
            return Err(k as u32);
        }
    }
    Ok(())
}

/// Whether a block is a bucket, or the offset of what is wrong first. That is the first byte of a record whose
/// key has more than 255 bytes, whose value has more than 1,024, which passes the end of the block, or whose
/// key is not above the one before it. Where the two bytes of a key's length are 0 or past the end, no record
/// begins, and it is the first byte from there on that is not 0.
pub fn check_bucket(block: &Block) -> Result<(), u32>
    ensures { MatchResult result (λ _. IsFormed block.now) (λ offset. IsFirstBad block.now offset) }
{
    let bytes = block.bytes();
    let mut last: &[u8] = &[];
    let mut at = 0;
    while let Some(lengths) = lengths_at(bytes, at) {
        let Some(key) = good_key(bytes, at, lengths, last) else {
            return Err(at as u32);
        };
        last = key;
        at += lengths.size();
    }
    check_zeros(bytes, at)
}
