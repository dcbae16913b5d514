// Writing a descriptor.
ghost use Rattle.std.specs.Prelude.{◌≡◌, ◌≤◌, ◌<◌, ◌+◌, ℕ, length};
ghost use Rattle.mq_blocks.specs.Limits.{list_limit, newest_version};
ghost use Rattle.mq_blocks.specs.Descriptor.{form_with, further, further_block, header_bytes, journal_form, last_block};
ghost use Rattle.mq_blocks.specs.Windows.{written};

use crate::descriptor::Descriptor;
use crate::header::{ENTRIES, HEADER, JOURNAL, Stamp};
use mq_blocks::Block;
use mq_blocks::bytes::{put, put_list};

/// Writes a descriptor over the whole block, and over the one before it where the lists don't fit into
/// one block; else that one stays as it was.
pub fn write_descriptor(d: &Descriptor, into: &mut Block, before: &mut Block)
    requires { length d.now.logged + length d.now.revoked ≤ list_limit }
    ensures last { into.new ≡ last_block journal_form newest_version d.now }
    ensures rest { further d.now ≡ 1 → before.new ≡ further_block journal_form newest_version d.now }
    ensures kept { further d.now ≡ 0 → before.new ≡ before.old }
{
    write_last(d, JOURNAL, into.bytes_mut());
    if d.logged.len() + d.revoked.len() > ENTRIES {
        write_further(d, before.bytes_mut());
    }
}

/// Writes a descriptor whose lists fit into one block over the whole block.
pub fn write_one_block(d: &Descriptor, into: &mut Block)
    requires { length d.now.logged + length d.now.revoked ≤ 1010 }
    ensures { into.new ≡ last_block journal_form newest_version d.now }
{
    write_last(d, JOURNAL, into.bytes_mut());
}

/// How many of so many entries fit into the room.
fn fitting(count: usize, room: usize) -> usize
    ensures few { result ≤ count }
    ensures fits { result ≤ room }
    ensures most { result < room → result ≡ count }
{
    if count <= room {
        return count;
    }
    room
}

fn write_last(d: &Descriptor, stamp: Stamp, block: &mut [u8])
    requires counts { length d.now.logged + length d.now.revoked ≤ list_limit }
    requires whole { length block.old ≡ 4096 }
    ensures { block.new ≡ last_block (form_with stamp.magic stamp.version) stamp.version d.now }
{
    let logged = fitting(d.logged.len(), ENTRIES);
    let revoked = fitting(d.revoked.len(), ENTRIES - logged);
    let second = HEADER + 4 * logged;
    let end = second + 4 * revoked;
    put_header(d, stamp, block);
    put_list(block, HEADER, &d.logged.as_slice()[..logged]);
    put_list(block, second, &d.revoked.as_slice()[..revoked]);
    block[end..].fill(0);
}

fn write_further(d: &Descriptor, block: &mut [u8])
    requires counts { length d.now.logged + length d.now.revoked ≤ 2034 }
    requires many { 1010 < length d.now.logged + length d.now.revoked }
    requires whole { length block.old ≡ 4096 }
    ensures { (magic version : ℕ) → block.new ≡ further_block (form_with magic version) version d.now }
{
    let logged = fitting(d.logged.len(), ENTRIES);
    let revoked = fitting(d.revoked.len(), ENTRIES - logged);
    let second = 4 * (d.logged.len() - logged);
    let end = second + 4 * (d.revoked.len() - revoked);
    put_list(block, 0, &d.logged.as_slice()[logged..]);
    put_list(block, second, &d.revoked.as_slice()[revoked..]);
    block[end..].fill(0);
}

fn put_header(d: &Descriptor, stamp: Stamp, block: &mut [u8])
    requires counts { length d.now.logged + length d.now.revoked ≤ list_limit }
    requires whole { length block.old ≡ 4096 }
    ensures { block.new ≡ written block.old 0 (header_bytes stamp.magic stamp.version d.now) }
{
    put(block, 0, &stamp.magic.to_le_bytes());
    put(block, 8, &stamp.version.to_le_bytes());
    put(block, 12, &d.queue.to_le_bytes());
    put(block, 16, &d.number.to_le_bytes());
    put(block, 24, &d.place.to_le_bytes());
    put(block, 32, &d.prev_place.to_le_bytes());
    put(block, 40, &d.prev_number.to_le_bytes());
    put(block, 48, &(d.logged.len() as u32).to_le_bytes());
    put(block, 52, &(d.revoked.len() as u32).to_le_bytes());
}
