// Reading a descriptor.
ghost use Rattle.std.specs.Prelude.{◌≡◌, ◌≢◌, ◌⊎◌, ◌↔◌, length, IfOk, IfErr, IsErrOf, IsTrue, MatchResult};
ghost use Rattle.mq_blocks.specs.Descriptor.{Descriptor as Text};
ghost use Rattle.mq_area.specs.Reading.{Accepts, Refuses, further_of, header_of};

use crate::bytes::read_list;
use crate::descriptor::{Descriptor, Expect};
use crate::header::{JOURNAL, check_header, read_header};
use crate::lists::{are_bytes, check_lists, check_rest};
use crate::refusal::DescriptorRefusal;
use mq_blocks::{Block, Geometry, further_blocks};
use std::alloc::Global;

/// Whether the counts in the block say that its lists go on in the block before it.
pub fn has_further(block: &Block) -> bool
    ensures is { IsTrue result ↔ (further_of (header_of block.now) ≡ 1) }
    ensures whole { length block.now ≡ 4096 }
{
    let header = read_header(block.bytes());
    further_blocks(u64::from(header.logged) + u64::from(header.revoked)) == 1
}

/// The descriptor whose last block this is, where it is the one that is expected. Where it is not, the
/// refusal names the first test that failed. The block before it is looked at only where the lists don't
/// fit into the last one. Only the two lists take memory.
pub fn read_descriptor(
    alloc: Global,
    geometry: Geometry,
    at: &Expect,
    block: &Block,
    before: &Block,
) -> Result<Descriptor, DescriptorRefusal>
    ensures sound { IfOk result (Accepts geometry at.now block.now before.now) }
    ensures refused { IfErr result (Refuses geometry at.now block.now before.now) }
    ensures complete { (d : Text)
        → Accepts geometry at.now block.now before.now d
        → MatchResult result (λ r. r ≡ d) (λ e. e ≡ DescriptorRefusal.OutOfMemory) }
    ensures exact { (e : DescriptorRefusal)
        → e ≢ DescriptorRefusal.OutOfMemory
        → Refuses geometry at.now block.now before.now e
        → IsErrOf result e ⊎ IsErrOf result DescriptorRefusal.OutOfMemory }
{
    read_bytes(alloc, geometry, at, block.bytes(), before.bytes())
}

fn read_bytes(
    alloc: Global,
    geometry: Geometry,
    at: &Expect,
    block: &[u8],
    before: &[u8],
) -> Result<Descriptor, DescriptorRefusal>
    requires whole { length block.now ≡ 4096 }
    requires further { length before.now ≡ 4096 }
    ensures sound { IfOk result (Accepts geometry at.now block.now before.now) }
    ensures refused { IfErr result (Refuses geometry at.now block.now before.now) }
{
    let header = read_header(block);
    check_header(
        &header,
        JOURNAL,
        geometry.area(),
        geometry.write_limit(),
        at,
    )?;
    are_bytes(before);
    let first = header.logged as usize;
    let count = header.revoked as usize;
    let logged = read_list(alloc, block, before, 0, first)?;
    let revoked = read_list(alloc, block, before, first, count)?;
    check_lists(geometry.homes(), &logged, &revoked)?;
    check_rest(block, before, first + count)?;
    Ok(Descriptor {
        queue: header.queue,
        number: header.number,
        place: header.place,
        prev_place: header.prev_place,
        prev_number: header.prev_number,
        logged,
        revoked,
    })
}
