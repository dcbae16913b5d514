// The lengths with which a record begins.
ghost use Rattle.std.specs.Prelude.{◌≡◌, ◌≤◌, ◌<◌, ◌+◌, ◌^◌, ◌↔◌, IsTrue, MatchOption, length};
ghost use Rattle.mq_blocks.specs.Windows.{number_at, window};

use crate::key::{KEY_LIMIT, VALUE_LIMIT};
use mq_blocks::bytes::u16_at;

/// The bytes of the two lengths.
pub(crate) const LENGTHS: usize = 4;

/// The lengths of a record's key and value.
#[derive(Clone, Copy)]
pub(crate) struct Lengths {
    pub(crate) key: usize,
    pub(crate) value: usize,
}

impl Lengths {
    /// The bytes of the whole record.
    pub(crate) fn size(self) -> usize
        requires key { self.key < 2 ^ 16 }
        requires value { self.value < 2 ^ 16 }
        ensures { result ≡ 4 + self.key + self.value }
    {
        LENGTHS + self.key + self.value
    }

    /// Whether a record with these lengths is a good one, where so many bytes are left.
    pub(crate) fn are_good(self, left: usize) -> bool
        requires key { self.key < 2 ^ 16 }
        requires value { self.value < 2 ^ 16 }
        ensures { IsTrue result ↔ ((self.key ≤ 255) × (self.value ≤ 1024) × (4 + self.key + self.value ≤ left)) }
    {
        self.key <= KEY_LIMIT && self.value <= VALUE_LIMIT && self.size() <= left
    }
}

// The number in two bytes, of which those past the end count as 0.
fn length_at(bytes: &[u8], at: usize) -> usize
    requires whole { length bytes.now ≤ 4096 }
    requires at { at < 2 ^ 16 }
    ensures is { result ≡ number_at 2 at bytes.now }
    ensures low { result < 2 ^ 16 }
{
    if at + 2 <= bytes.len() {
        return u16_at(bytes, at) as usize;
    }
    if at < bytes.len() {
        return bytes[at] as usize;
    }
    0
}

/// The lengths of the record that begins here, or `None` where none does.
pub(crate) fn lengths_at(bytes: &[u8], at: usize) -> Option<Lengths>
    requires whole { length bytes.now ≤ 4096 }
    requires at { at ≤ 4096 }
    ensures { MatchOption result (number_at 2 at bytes.now ≡ 0) (λ l.
        (l.key ≡ number_at 2 at bytes.now) × (l.value ≡ number_at 2 (at + 2) bytes.now)
        × (1 ≤ l.key) × (l.key < 2 ^ 16) × (l.value < 2 ^ 16)) }
{
    let key = length_at(bytes, at);
    if key == 0 {
        return None;
    }
    Some(Lengths {
        key,
        value: length_at(bytes, at + 2),
    })
}

/// So many bytes from a place on.
pub(crate) fn part(bytes: &[u8], from: usize, count: usize) -> &[u8]
    requires from { from ≤ 8192 }
    requires inside { from + count ≤ length bytes.now }
    ensures { result.now ≡ window bytes.now from count }
{
    &bytes[from..from + count]
}

/// The key of the record that begins here with these lengths.
pub(crate) fn key_at(bytes: &[u8], at: usize, lengths: Lengths) -> &[u8]
    requires at { at ≤ 4096 }
    requires inside { at + 4 + lengths.key ≤ length bytes.now }
    ensures { result.now ≡ window bytes.now (at + 4) lengths.key }
{
    part(bytes, at + LENGTHS, lengths.key)
}
