// Bitmaps, and blocks of pointers.
ghost use Rattle.std.specs.Prelude.{◌≡◌, ◌≢◌, ◌<◌, ◌≤◌, ◌+◌, ◌*◌, ℕ, MatchOption, length, slice_index, if◌then◌else◌};
ghost use Rattle.std.specs.Int.{to_le_bytes, w32};
ghost use Rattle.mq_blocks.specs.Windows.{written};
ghost use Rattle.mq_layout.specs.Bits.{AreSet, IsFirstClear, bit_of, pointer_of};

use mq_blocks::Block;
use mq_blocks::bytes::{put, u32_at};

/// Whether a bit of a bitmap is set.
pub fn bit(block: &Block, at: u32) -> bool
    requires { at < 32768 }
    ensures { (if result then 1 else 0) ≡ bit_of block.now at }
{
    let byte = block.bytes()[(at / 8) as usize];
    byte >> (at % 8) & 1 == 1
}

/// The first bit of a bitmap that is clear, of those from `from` on and below `end`. A full byte is
/// skipped in one step.
pub fn first_clear(block: &Block, from: u32, end: u32) -> Option<u32>
    requires { end ≤ 32768 }
    ensures { MatchOption result (AreSet block.now from end) (IsFirstClear block.now from end) }
{
    let mut at = from;
    while at < end {
        if at % 8 == 0 && block.bytes()[(at / 8) as usize] == u8::MAX {
            at += 8;
        } else if bit(block, at) {
            at += 1;
        } else {
            return Some(at);
        }
    }
    None
}

/// Sets or clears a bit of a bitmap.
pub fn set_bit(into: &mut Block, at: u32, value: bool)
    requires { at < 32768 }
    ensures whole { length into.new ≡ 4096 }
    ensures bytes { (k : ℕ) → slice_index into.new k < 256 }
    ensures set { bit_of into.new at ≡ (if value then 1 else 0) }
    ensures others { (k : ℕ) → k ≢ at → bit_of into.new k ≡ bit_of into.old k }
{
    set_bit_of(into.bytes_mut(), at as usize, value);
}

fn set_bit_of(block: &mut [u8], at: usize, value: bool)
    requires { at < 8 * length block.old }
    ensures bytes { (k : ℕ) → slice_index block.new k < 256 }
    ensures set { bit_of block.new at ≡ (if value then 1 else 0) }
    ensures others { (k : ℕ) → k ≢ at → bit_of block.new k ≡ bit_of block.old k }
{
    let mask = 1u8 << (at % 8);
    if value {
        block[at / 8] |= mask;
    } else {
        block[at / 8] &= !mask;
    }
}

/// A pointer of an indirect block: a home block, or 0 for none.
pub fn pointer(block: &Block, at: u32) -> u32
    requires { at < 1024 }
    ensures { result ≡ pointer_of block.now at }
{
    u32_at(block.bytes(), 4 * at as usize)
}

/// Sets a pointer of an indirect block, of which these are the bytes.
pub fn set_pointer(block: &mut [u8], at: u32, value: u32)
    requires { 4 * at + 4 ≤ length block.old }
    ensures bytes { (k : ℕ) → slice_index block.new k < 256 }
    ensures is { block.new ≡ written block.old (4 * at) (to_le_bytes w32 value) }
{
    put(block, 4 * at as usize, &value.to_le_bytes());
}
