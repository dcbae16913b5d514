//! Numbers in the bytes of a block, the least byte first.
ghost use Rattle.std.specs.Prelude.{◌≡◌, ◌≤◌, ◌+◌, ◌*◌, length};
ghost use Rattle.mq_blocks.specs.Descriptor.{list_bytes};
ghost use Rattle.mq_blocks.specs.Windows.{written, number_at};

use crate::BlockNo;
use byteorder::{ByteOrder, LittleEndian};

/// Writes these bytes from `at` on.
pub fn put(block: &mut [u8], at: usize, bytes: &[u8])
    requires { at + length bytes.now ≤ length block.old }
    ensures { block.new ≡ written block.old at bytes.now }
{
    block[at..at + bytes.len()].copy_from_slice(bytes);
}

/// Writes the numbers of these blocks from `at` on, four bytes each.
pub fn put_list(block: &mut [u8], at: usize, list: &[BlockNo])
    requires { at + 4 * length list.now ≤ length block.old }
    ensures { block.new ≡ written block.old at (list_bytes list.now) }
{
    for (i, b) in list.iter().enumerate() {
        put(block, at + 4 * i, &b.0.to_le_bytes());
    }
}

/// The number in the two bytes from `at` on.
#[tactic(auto, unfolding(crate::specs::Windows::number_at))]
pub fn u16_at(block: &[u8], at: usize) -> u16
    requires { at + 2 ≤ length block.now }
    ensures { result ≡ number_at 2 at block.now }
{
    LittleEndian::read_u16(&block[at..])
}

/// The number in the four bytes from `at` on.
#[tactic(auto, unfolding(crate::specs::Windows::number_at))]
pub fn u32_at(block: &[u8], at: usize) -> u32
    requires { at + 4 ≤ length block.now }
    ensures { result ≡ number_at 4 at block.now }
{
    LittleEndian::read_u32(&block[at..])
}

/// The number in the eight bytes from `at` on.
#[tactic(auto, unfolding(crate::specs::Windows::number_at))]
pub fn u64_at(block: &[u8], at: usize) -> u64
    requires { at + 8 ≤ length block.now }
    ensures { result ≡ number_at 8 at block.now }
{
    LittleEndian::read_u64(&block[at..])
}
