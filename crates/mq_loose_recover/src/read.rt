// Reading a descriptor of the loose order.
ghost use Rattle.std.specs.Prelude.{◌≡◌, ◌≢◌, ◌⊎◌, ◌<◌, ◌≤◌, ◌+◌, ◌*◌, ◌↔◌, drop, length, IfOk, IfErr, IsErrOf, IsTrue, MatchOption, MatchResult, List, ℕ};
ghost use Rattle.mq_blocks.specs.Descriptor.{AreRising, Descriptor as Text};
ghost use Rattle.mq_area.specs.Reading.{StopsAt};
ghost use Rattle.mq_loose_recover.specs.Checks.{IsDepsRefusal};
ghost use Rattle.mq_loose_recover.specs.Reading.{AcceptsLoose, AreFewLoose, FollowsLoose, GoodHeader, RefusesHeader, RefusesLoose, wide_numbers};

use mq_area::{
    Descriptor, DescriptorRefusal, Expect, HEADER, Header, Stamp, check_expected, check_lists,
    check_rest, read_header, read_list,
};
use mq_blocks::bytes::u64_at;
use mq_blocks::{Block, Geometry, OutOfMemory, TxNo};
use mq_loose_order::{LOOSE_MAGIC, Numbers};
use std::alloc::Global;

/// The most blocks that a descriptor logs, and the most numbers that it lists.
const LOOSE_LIMIT: u32 = 256;

/// What marks a descriptor of the loose order.
const LOOSE: Stamp = Stamp {
    magic: LOOSE_MAGIC,
    version: 1,
};

/// A descriptor of the loose order.
#[derive(Drop)]
pub struct LooseDescriptor {
    /// Its own part, which revokes nothing.
    pub descriptor: Descriptor,
    /// The numbers on which its transaction depends.
    pub deps: Numbers,
}

/// The descriptor whose block this is, where it is the one that is expected. Where it is not, the refusal
/// names the first test that failed. Only the two lists take memory.
pub fn read_loose_descriptor(
    alloc: Global,
    geometry: Geometry,
    at: &Expect,
    block: &Block,
) -> Result<LooseDescriptor, DescriptorRefusal>
    ensures sound { IfOk result (λ r. AcceptsLoose geometry at.now block.now r.descriptor r.deps) }
    ensures refused { IfErr result (RefusesLoose geometry at.now block.now) }
    ensures complete { (d : Text) (deps : List ℕ)
        → AcceptsLoose geometry at.now block.now d deps
        → MatchResult result (λ r. (r.descriptor ≡ d) × (r.deps ≡ deps))
        (λ e. e ≡ DescriptorRefusal.OutOfMemory) }
    ensures exact { (e : DescriptorRefusal)
        → e ≢ DescriptorRefusal.OutOfMemory
        → RefusesLoose geometry at.now block.now e
        → IsErrOf result e ⊎ IsErrOf result DescriptorRefusal.OutOfMemory }
{
    read_bytes(alloc, geometry, at, block.bytes())
}

fn read_bytes(
    alloc: Global,
    geometry: Geometry,
    at: &Expect,
    block: &[u8],
) -> Result<LooseDescriptor, DescriptorRefusal>
    requires { length block.now ≡ 4096 }
    ensures sound { IfOk result (λ r. AcceptsLoose geometry at.now block.now r.descriptor r.deps) }
    ensures refused { IfErr result (RefusesLoose geometry at.now block.now) }
{
    let header = read_header(block);
    check_header(&header, geometry.area(), at)?;
    let first = header.logged as usize;
    let count = header.revoked as usize;
    let logged = read_list(alloc, block, block, 0, first)?;
    let deps = read_numbers(alloc, block, HEADER + 4 * first, count)?;
    check_lists(geometry.homes(), &logged, &[])?;
    check_deps(header.number, first, &deps)?;
    check_rest(block, block, first + 2 * count)?;
    Ok(LooseDescriptor {
        descriptor: Descriptor {
            queue: header.queue,
            number: header.number,
            place: header.place,
            prev_place: header.prev_place,
            prev_number: header.prev_number,
            logged,
            revoked: Vec::new(alloc),
        },
        deps: Numbers(deps),
    })
}

/// Makes the tests that need the header alone, and names the first that fails.
fn check_header(h: &Header, area: u32, at: &Expect) -> Result<(), DescriptorRefusal>
    requires { 0 < area }
    ensures { MatchResult result (λ _. GoodHeader area at.now h.now) (RefusesHeader area at.now h.now) }
{
    check_expected(h, LOOSE, area, at)?;
    if !follows(h) {
        return Err(DescriptorRefusal::Previous {
            place: h.prev_place,
            number: h.prev_number,
        });
    }
    if !are_few(h) {
        return Err(DescriptorRefusal::Counts {
            logged: h.logged,
            revoked: h.revoked,
        });
    }
    Ok(())
}

/// Whether the previous descriptor that it names is before it.
fn follows(h: &Header) -> bool
    ensures { IsTrue result ↔ FollowsLoose h.now }
{
    if h.prev_number >= h.number {
        return false;
    }
    if h.prev_number == 0 {
        return h.prev_place == 0;
    }
    h.prev_place < h.place && u64::from(h.logged) < h.place - h.prev_place
}

/// Whether both lists are short enough, and the copies have places before the block.
fn are_few(h: &Header) -> bool
    ensures { IsTrue result ↔ AreFewLoose h.now }
{
    h.logged <= LOOSE_LIMIT && h.revoked <= LOOSE_LIMIT && u64::from(h.logged) <= h.place
}

/// The numbers of eight bytes each that stand from `at` on.
fn read_numbers(
    alloc: Global,
    block: &[u8],
    at: usize,
    count: usize,
) -> Result<Vec<TxNo>, OutOfMemory>
    requires whole { length block.now ≡ 4096 }
    requires inside { at + 8 * count ≤ 4096 }
    ensures { IfOk result (λ v. v.items ≡ wide_numbers count (drop at block.now)) }
{
    let mut numbers = Vec::with_capacity(alloc, count)?;
    for i in 0..count {
        numbers.push(TxNo(u64_at(block, at + 8 * i)))?;
    }
    Ok(numbers)
}

/// The first of these numbers that is 0, not below a limit, or not above the one before it.
fn first_unordered(limit: u64, numbers: &[TxNo]) -> Option<usize>
    ensures { MatchOption result (AreRising 1 limit numbers.now) (StopsAt (AreRising 1 limit) numbers.now) }
{
    let mut low = 1;
    for (i, number) in numbers.iter().enumerate() {
        if number.0 < low || number.0 >= limit {
            return Some(i);
        }
        low = number.0 + 1;
    }
    None
}

/// Tests the dependences of a number, which stand after so many logged blocks, and names the first that is
/// not allowed there.
fn check_deps(number: u64, logged: usize, deps: &[TxNo]) -> Result<(), DescriptorRefusal>
    requires { logged + length deps.now ≤ 512 }
    ensures { MatchResult result (λ _. AreRising 1 number deps.now) (IsDepsRefusal number logged deps.now) }
{
    if let Some(k) = first_unordered(number, deps) {
        let found = deps[k];
        return Err(DescriptorRefusal::List {
            index: (logged + k) as u32,
            found: found.0,
        });
    }
    Ok(())
}
