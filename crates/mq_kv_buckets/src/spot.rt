// Where the record of a key stands in a bucket.
ghost use Rattle.std.specs.Prelude.{◌≡◌, ◌≤◌, ◌<◌, ◌+◌, MatchOption, None, Some, length};
ghost use Rattle.mq_kv_buckets.specs.Buckets.{IsFormed, records_of};
ghost use Rattle.mq_kv_buckets.specs.Edits.{IsBetween, IsSpot};
ghost use Rattle.mq_kv_buckets.specs.Records.{lookup, size_of_all};

use crate::record::{LENGTHS, key_at, lengths_at, part};
use mq_blocks::Block;
use std::cmp::Ordering;

/// The place of a key's record in a bucket: where it begins, or would begin, and how many bytes it has, which
/// are none where the key isn't there.
#[derive(Clone, Copy, PartialEq, Eq)]
pub struct Spot {
    pub at: usize,
    pub size: usize,
}

// The place of a key in the bytes of a bucket.
fn find_in(bytes: &[u8], key: &[u8]) -> Spot
    requires { IsFormed bytes.now }
    ensures spot { IsSpot (records_of bytes.now) key.now result.at result.size }
    ensures between { IsBetween (records_of bytes.now) result.at }
{
    let mut at = 0;
    while let Some(lengths) = lengths_at(bytes, at) {
        match key_at(bytes, at, lengths).cmp(key) {
            Ordering::Less => at += lengths.size(),
            Ordering::Equal => {
                return Spot {
                    at,
                    size: lengths.size(),
                };
            }
            Ordering::Greater => return Spot { at, size: 0 },
        }
    }
    Spot { at, size: 0 }
}

/// The place of a key in a bucket, whose records are gone over up to there.
pub fn find(block: &Block, key: &[u8]) -> Spot
    requires { IsFormed block.now }
    ensures spot { IsSpot (records_of block.now) key.now result.at result.size }
    ensures between { IsBetween (records_of block.now) result.at }
{
    find_in(block.bytes(), key)
}

// The place behind the last record, from the beginning of one on.
fn end_in(bytes: &[u8], from: usize) -> usize
    requires formed { IsFormed bytes.now }
    requires from { IsBetween (records_of bytes.now) from }
    ensures { result ≡ size_of_all (records_of bytes.now) }
{
    let mut at = from;
    while let Some(lengths) = lengths_at(bytes, at) {
        at += lengths.size();
    }
    at
}

/// The place behind the last record of a bucket, which is gone over from the place of a key on.
pub fn end_of(block: &Block, spot: Spot) -> usize
    requires formed { IsFormed block.now }
    requires at { IsBetween (records_of block.now) spot.at }
    ensures { result ≡ size_of_all (records_of block.now) }
{
    end_in(block.bytes(), spot.at)
}

/// The value under a key of a bucket.
pub fn get<'a>(block: &'a Block, key: &[u8]) -> Option<&'a [u8]>
    requires { IsFormed block.now }
    ensures { MatchOption result (lookup (records_of block.now) key.now ≡ None)
        (λ value. lookup (records_of block.now) key.now ≡ Some value.now) }
{
    let spot = find(block, key);
    if spot.size == 0 {
        return None;
    }
    let lengths = LENGTHS + key.len();
    Some(part(block.bytes(), spot.at + lengths, spot.size - lengths))
}
