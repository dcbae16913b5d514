// The fields of a descriptor before its lists.
ghost use Rattle.std.specs.Prelude.{◌≡◌, ◌≤◌, ◌<◌, ◌+◌, ◌*◌, ℕ, length, slice_index, IsTrue, ◌↔◌, MatchResult};
ghost use Rattle.mq_area.specs.Reading.{header_of, GoodCounts, GoodPlace, RefusesHeader, RefusesPlace, IsPlaced, Follows, AreFew, further_of};
ghost use Rattle.mq_blocks.specs.Descriptor.{most_listed};

use crate::descriptor::{Expect, PlaceIs};
use crate::refusal::DescriptorRefusal;
use mq_blocks::bytes::{u32_at, u64_at};
use mq_blocks::{DESCRIPTOR_VERSION, ENTRIES_IN_ONE, further_blocks};

/// The bytes before the two lists.
pub const HEADER: usize = 56;

/// The entries of the lists that stand in a descriptor's last block.
pub const ENTRIES: usize = ENTRIES_IN_ONE as usize;

/// What marks the descriptors of one kind of journal: their first eight bytes, little endian, and the
/// version in which they are written.
#[derive(Clone, Copy)]
pub struct Stamp {
    pub magic: u64,
    pub version: u32,
}

/// That of the journal's descriptors, "MQFSDSC1".
pub const JOURNAL: Stamp = Stamp {
    magic: 0x3143_5344_5346_514d,
    version: DESCRIPTOR_VERSION,
};

/// The fields before the lists, as they stand in a block.
#[derive(Clone, Copy)]
pub struct Header {
    pub magic: u64,
    pub version: u32,
    pub queue: u32,
    pub number: u64,
    pub place: u64,
    pub prev_place: u64,
    pub prev_number: u64,
    pub logged: u32,
    pub revoked: u32,
}

/// The header in the bytes of a block, which is not checked.
#[tactic(auto, unfolding(crate::specs::Reading::header_of))]
pub fn read_header(block: &[u8]) -> Header
    requires { HEADER ≤ length block.now }
    ensures is { result ≡ header_of block.now }
    ensures bytes { (k : ℕ) → slice_index block.now k < 256 }
{
    Header {
        magic: u64_at(block, 0),
        version: u32_at(block, 8),
        queue: u32_at(block, 12),
        number: u64_at(block, 16),
        place: u64_at(block, 24),
        prev_place: u64_at(block, 32),
        prev_number: u64_at(block, 40),
        logged: u32_at(block, 48),
        revoked: u32_at(block, 52),
    }
}

/// Makes the tests up to that of the place, and names the first that fails.
pub fn check_expected(
    h: &Header,
    stamp: Stamp,
    area: u32,
    at: &Expect,
) -> Result<(), DescriptorRefusal>
    requires { 0 < area }
    ensures { MatchResult result (λ _. GoodPlace stamp area at.now h.now)
        (RefusesPlace stamp area at.now h.now) }
{
    if h.magic != stamp.magic {
        return Err(DescriptorRefusal::Magic { found: h.magic });
    }
    if h.version != 1 && h.version != stamp.version {
        return Err(DescriptorRefusal::Version { found: h.version });
    }
    if h.queue != at.queue.0 {
        return Err(DescriptorRefusal::Queue { found: h.queue });
    }
    if h.number != at.number.0 {
        return Err(DescriptorRefusal::Number { found: h.number });
    }
    if !is_placed(area, at.place, h.place) {
        return Err(DescriptorRefusal::Place { found: h.place });
    }
    Ok(())
}

/// Makes the tests that need the header alone, and names the first that fails.
pub fn check_header(
    h: &Header,
    stamp: Stamp,
    area: u32,
    limit: u32,
    at: &Expect,
) -> Result<(), DescriptorRefusal>
    requires { 0 < area }
    ensures { MatchResult result (λ _. GoodCounts stamp area limit at.now h.now)
        (RefusesHeader stamp area limit at.now h.now) }
{
    check_expected(h, stamp, area, at)?;
    if !follows(h) {
        return Err(DescriptorRefusal::Previous {
            place: h.prev_place,
            number: h.prev_number,
        });
    }
    if !are_few(h, limit) {
        return Err(DescriptorRefusal::Counts {
            logged: h.logged,
            revoked: h.revoked,
        });
    }
    Ok(())
}

/// Whether a place is the one that is expected, in an area of the given number of blocks.
fn is_placed(area: u32, expected: PlaceIs, place: u64) -> bool
    requires { 0 < area }
    ensures { IsTrue result ↔ IsPlaced area expected place }
{
    if place >= 1 << 62 {
        return false;
    }
    match expected {
        PlaceIs::Index(index) => place % u64::from(area) == u64::from(index),
        PlaceIs::Exact(exact) => place == exact,
    }
}

/// Whether the previous descriptor that it names is before it.
fn follows(h: &Header) -> bool
    ensures { IsTrue result ↔ Follows h.now }
{
    if h.prev_number >= h.number {
        return false;
    }
    if h.prev_number == 0 {
        return h.prev_place == 0;
    }
    h.prev_place < h.place && before_last(h) < h.place - h.prev_place
}

/// Whether the lists are short enough, and the copies and the further block have places before the
/// last block.
fn are_few(h: &Header, limit: u32) -> bool
    ensures { IsTrue result ↔ AreFew limit h.now }
{
    u64::from(h.logged) + u64::from(h.revoked) <= most_listed(limit, h.version)
        && before_last(h) <= h.place
}

/// How many blocks a descriptor of this version lists at most.
fn most_listed(limit: u32, version: u32) -> u64
    ensures { result ≡ most_listed limit version }
{
    if version == 1 {
        return 1000;
    }
    u64::from(limit)
}

/// The blocks of the transaction before the descriptor's last block.
fn before_last(h: &Header) -> u64
    ensures { result ≡ h.now.logged + further_of h.now }
{
    u64::from(h.logged) + further_blocks(u64::from(h.logged) + u64::from(h.revoked))
}
