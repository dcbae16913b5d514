// The slots of a directory's block.
ghost use Rattle.std.specs.Prelude.{◌≡◌, ◌≤◌, ◌<◌, ◌+◌, ◌*◌, ◌^◌, ℕ, length, slice_index};
ghost use Rattle.std.specs.Prelude.{IfErr, IfOk, IsErrOf, MatchResult, Option};
ghost use Rattle.mq_blocks.specs.Windows.{written};
ghost use Rattle.mq_layout.specs.Fields.{Finds, zero_bytes};
ghost use Rattle.mq_layout.specs.Names.{IsName};
ghost use Rattle.mq_layout.specs.Slots.{Entry, ShowsSlot, entry_of, slot_bytes, wrong_from, wrong_slot, wrong_used};

use crate::name::is_good_name;
use crate::refusal::{LayoutCause, LayoutRefusal, check, check_zeros, refused};
use mq_blocks::Block;
use mq_blocks::bytes::{put, u32_at};

/// The number of bytes of a slot.
const SIZE: usize = 272;

/// A used slot. Its name is the `length` bytes from offset `272 * at + 16` of the block.
#[derive(Clone, Copy, PartialEq, Eq)]
pub struct Slot {
    pub inode: u32,
    pub length: u8,
}

/// The slot at a place of a directory's block, or `None` for an unused one.
pub fn read_slot(block: &Block, at: u32) -> Result<Option<Slot>, LayoutRefusal>
    requires { at < 15 }
    ensures sound { IfOk result (λ o. ShowsSlot block.now at (entry_of block.now at o)) }
    ensures complete { (e : Option Entry)
        → ShowsSlot block.now at e
        → MatchResult result (λ o. entry_of block.now at o ≡ e) (λ _. ⊥) }
    ensures refused { IfErr result (λ e. wrong_slot block.now at ≡ Some e) }
    ensures exact { (e : LayoutRefusal) → wrong_slot block.now at ≡ Some e → IsErrOf result e }
{
    let bytes = block.bytes();
    let start = SIZE * at as usize;
    check_slot(bytes, start)?;
    if bytes[start + 4] == 0 {
        return Ok(None);
    }
    Ok(Some(Slot {
        inode: u32_at(bytes, start),
        length: bytes[start + 5],
    }))
}

#[tactic(auto, unfolding(crate::specs::Slots::wrong_from))]
fn check_slot(block: &[u8], start: usize) -> Result<(), LayoutRefusal>
    requires whole { length block.now ≡ 4096 }
    requires inside { start + 272 ≤ 4096 }
    ensures finds { Finds (wrong_from start block.now) result }
    ensures bytes { (k : ℕ) → slice_index block.now k < 256 }
{
    match block[start + 4] {
        0 => check_zeros(block, start, SIZE),
        1 => check_used(block, start),
        _ => Err(refused(LayoutCause::Used, start + 4)),
    }
}

#[tactic(auto, unfolding(crate::specs::Slots::wrong_used, crate::specs::Fields::first))]
fn check_used(block: &[u8], start: usize) -> Result<(), LayoutRefusal>
    requires whole { length block.now ≡ 4096 }
    requires inside { start + 272 ≤ 4096 }
    ensures { Finds (wrong_used (slice_index block.now (start + 5)) start block.now) result }
{
    let length = block[start + 5] as usize;
    let end = start + 16 + length;
    check(LayoutCause::Length, start + 5, length > 0)?;
    check_zeros(block, start + 6, 10)?;
    let is_good = is_good_name(&block[start + 16..end]);
    check(LayoutCause::Name, start + 16, is_good)?;
    check_zeros(block, end, 256 - length)
}

/// Writes a used slot at a place of a directory's block.
pub fn write_slot(into: &mut Block, at: u32, inode: u32, name: &[u8])
    requires at { at < 15 }
    requires name { IsName name.now }
    ensures whole { length into.new ≡ 4096 }
    ensures bytes { (k : ℕ) → slice_index into.new k < 256 }
    ensures is { into.new ≡ written into.old (272 * at)
        (slot_bytes (record { inode = inode; name = name.now })) }
{
    put_slot(into.bytes_mut(), SIZE * at as usize, inode, name);
}

fn put_slot(block: &mut [u8], start: usize, inode: u32, name: &[u8])
    requires inside { start + 272 ≤ length block.old }
    requires few { length name.now ≤ 255 }
    ensures bytes { (k : ℕ) → slice_index block.new k < 256 }
    ensures is { block.new ≡ written block.old start (slot_bytes (record { inode = inode; name = name.now })) }
{
    put(block, start, &inode.to_le_bytes());
    put(block, start + 4, &[1, name.len() as u8]);
    put_zeros(block, start + 6, 10);
    put(block, start + 16, name);
    put_zeros(block, start + 16 + name.len(), 256 - name.len());
}

/// Makes a slot unused.
pub fn clear_slot(into: &mut Block, at: u32)
    requires { at < 15 }
    ensures whole { length into.new ≡ 4096 }
    ensures bytes { (k : ℕ) → slice_index into.new k < 256 }
    ensures is { into.new ≡ written into.old (272 * at) (zero_bytes 272) }
{
    put_zeros(into.bytes_mut(), SIZE * at as usize, SIZE);
}

fn put_zeros(block: &mut [u8], from: usize, count: usize)
    requires { from + count ≤ length block.old }
    ensures bytes { (k : ℕ) → slice_index block.new k < 256 }
    ensures is { block.new ≡ written block.old from (zero_bytes count) }
{
    block[from..from + count].fill(0);
}
