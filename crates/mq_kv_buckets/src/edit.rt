// Edits of a bucket in place.
ghost use Rattle.std.specs.Prelude.{◌≡◌, ◌≤◌, ◌<◌, ◌+◌, ◌-◌, ℕ, List, length};
ghost use Rattle.mq_blocks.specs.Windows.{written};
ghost use Rattle.mq_kv_buckets.specs.Buckets.{AreZeros, IsFormed, bucket_bytes, records_of, zero_bytes};
ghost use Rattle.mq_kv_buckets.specs.Edits.{IsMoved, IsSpot};
ghost use Rattle.mq_kv_buckets.specs.Records.{put_in, record_bytes, size_of_all, without};

use crate::record::LENGTHS;
use crate::spot::Spot;
use mq_blocks::Block;
use mq_blocks::bytes::put as put_bytes;

// Sets so many bytes to 0.
fn clear(bytes: &mut [u8], from: usize, count: usize)
    requires { from + count ≤ length bytes.old }
    ensures { bytes.new ≡ written bytes.old from (zero_bytes count) }
{
    bytes[from..from + count].fill(0);
}

// Moves what stands behind the place of a key, so that `room` bytes are free there. The records end at `end`.
fn make_room(bytes: &mut [u8], spot: Spot, room: usize, end: usize)
    requires whole { length bytes.old ≡ 4096 }
    requires inside { spot.at + spot.size ≤ end }
    requires end { end ≤ 4096 }
    requires fits { end - spot.size + room ≤ 4096 }
    requires zeros { AreZeros bytes.old end 4096 }
    ensures { IsMoved bytes.old bytes.new spot.at spot.size room end }
{
    let behind = spot.at + spot.size;
    bytes.copy_within(behind..end, spot.at + room);
    let new_end = end - spot.size + room;
    if new_end < end {
        clear(bytes, new_end, end - new_end);
    }
}

// Writes a record from `at` on.
fn put_record(bytes: &mut [u8], at: usize, key: &[u8], value: &[u8])
    requires key { length key.now ≤ 255 }
    requires value { length value.now ≤ 1024 }
    requires fits { at + 4 + length key.now + length value.now ≤ length bytes.old }
    ensures { bytes.new ≡ written bytes.old at (record_bytes (record { key = key.now; value = value.now })) }
{
    put_bytes(bytes, at, &(key.len() as u16).to_le_bytes());
    put_bytes(bytes, at + 2, &(value.len() as u16).to_le_bytes());
    put_bytes(bytes, at + LENGTHS, key);
    put_bytes(bytes, at + LENGTHS + key.len(), value);
}

// Puts the record of a key in its place.
fn put_in_bytes(bytes: &mut [u8], spot: Spot, end: usize, key: &[u8], value: &[u8])
    requires formed { IsFormed bytes.old }
    requires spot { IsSpot (records_of bytes.old) key.now spot.at spot.size }
    requires end { end ≡ size_of_all (records_of bytes.old) }
    requires key { length key.now ≤ 255 }
    requires value { length value.now ≤ 1024 }
    requires fits { size_of_all (put_in key.now value.now (records_of bytes.old)) ≤ 4096 }
    ensures { bytes.new ≡ bucket_bytes (put_in key.now value.now (records_of bytes.old)) }
{
    make_room(bytes, spot, LENGTHS + key.len() + value.len(), end);
    put_record(bytes, spot.at, key, value);
}

/// Sets the value of a key in its bucket, in place of an earlier one, where the bucket has room for it. `spot`
/// is the key's place, and the records end at `end`.
pub fn put(block: &mut Block, spot: Spot, end: usize, key: &[u8], value: &[u8])
    requires formed { IsFormed block.old }
    requires spot { IsSpot (records_of block.old) key.now spot.at spot.size }
    requires end { end ≡ size_of_all (records_of block.old) }
    requires key { length key.now ≤ 255 }
    requires value { length value.now ≤ 1024 }
    requires fits { size_of_all (put_in key.now value.now (records_of block.old)) ≤ 4096 }
    ensures { block.new ≡ bucket_bytes (put_in key.now value.now (records_of block.old)) }
{
    put_in_bytes(block.bytes_mut(), spot, end, key, value);
}

// Removes the record of a key.
fn remove_in_bytes(bytes: &mut [u8], spot: Spot, end: usize)
    requires inside { spot.at + spot.size ≤ end }
    requires formed { IsFormed bytes.old }
    requires end { end ≡ size_of_all (records_of bytes.old) }
    ensures { (key : List ℕ) → IsSpot (records_of bytes.old) key spot.at spot.size
        → bytes.new ≡ bucket_bytes (without key (records_of bytes.old)) }
{
    make_room(bytes, spot, 0, end);
}

/// Removes the record of a key from its bucket. `spot` is the key's place, and the records end at `end`.
pub fn remove(block: &mut Block, spot: Spot, end: usize)
    requires inside { spot.at + spot.size ≤ end }
    requires formed { IsFormed block.old }
    requires end { end ≡ size_of_all (records_of block.old) }
    ensures { (key : List ℕ) → IsSpot (records_of block.old) key spot.at spot.size
        → block.new ≡ bucket_bytes (without key (records_of block.old)) }
{
    remove_in_bytes(block.bytes_mut(), spot, end);
}
