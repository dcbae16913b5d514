// The chain of a queue.
ghost use Rattle.std.specs.Prelude.{◌≡◌, ◌≢◌, ◌⊎◌, ◌<◌, ◌≤◌, ◌+◌, ◌-◌, ◌%◌, ℕ, List, [], length, IfOk, IfErr, IsErrOf, IsOk, Some, true, slice_index_or};
ghost use Rattle.mq_blocks.specs.Limits.{depth, list_limit};
ghost use Rattle.std.specs.Prelude.{MatchOption, MatchResult};
ghost use Rattle.mq_blocks.specs.Blocks.{block_at};
ghost use Rattle.mq_blocks.specs.Descriptor.{Descriptor as Text, first_place, further};
ghost use Rattle.mq_blocks.specs.Drive.{IsQuiescent};
ghost use Rattle.mq_blocks.specs.Geometry.{queues_of, area_of, area_lba};
ghost use Rattle.mq_blocks.specs.Journal.{Shown, IsQueueChain};
ghost use Rattle.mq_area.specs.Reading.{further_of, header_of};
ghost use Rattle.mq_nvme.specs.Says.{says};
ghost use Rattle.mq_drive.specs.Start.{IsPortOf};
ghost use Rattle.mq_recover.specs.Recover.{IsSeenAt, IsQueuePort, where_of};
ghost use Rattle.mq_recover.specs.Refusals.{AreWords, AreRung, IsRungWhole, IsGreatest, IsNewest, IsIndex, IsWholeChainBy, IsFoundNextBy, IsReadable, IsReadableBy};
ghost use Rattle.mq_recover.specs.Refusals.{RefusesEntry, RefusesNewest, RefusesNextBy, RefusesChainBy, RefusesRung, RefusesQueue, RefusesQueueBy, before_where, entry_at};

use crate::descriptors::{Descriptors, JournalDescriptors};
use crate::refusal::ChainRefusal;
use mq_area::{Descriptor, DescriptorRefusal, Expect, PlaceIs, has_further};
use mq_blocks::{Block, Geometry, QueueNo, RING_DEPTH, TxNo, USABLE_DEPTH, further_blocks};
use mq_drive::{Port, Role};
use mq_nvme::{WriteReq, read_write};
use std::alloc::Global;
use std::marker::Model;

// The greatest number of a transaction, and the greatest doorbell.
pub const LIMIT: u64 = 1 << 63;

/// The transactions of a queue's chain, the newest first.
#[derive(Drop)]
pub struct Chain {
    pub transactions: Vec<Descriptor>,
}

impl Model for Chain {
    ghost use Rattle.std.specs.Prelude.{List};
    ghost use Rattle.mq_blocks.specs.Descriptor.{Descriptor as Text, first_place, further};

    ghost Value = { List Text };

    ghost view = { λ c. c.transactions.items };
}

// What a readable queue shows.
#[derive(Drop)]
pub struct QueueRead {
    pub chain: Chain,
    // The greatest number of the entries from head to doorbell, or 0.
    pub greatest: u64,
}

// The entry before the head.
#[derive(Clone, Copy, PartialEq, Eq)]
pub struct Newest {
    pub number: u64,
    pub lba: u64,
}

/// The chain of the queue of this port: the transactions above the base that the entry before the
/// head and the descriptors lead to. Each block of the chain is read once.
pub fn read_chain<P: Port>(
    alloc: Global,
    geometry: Geometry,
    port: &P,
    base: TxNo,
) -> Result<Chain, ChainRefusal>
    requires port { IsQueuePort geometry (P.state port.now) }
    requires quiet { IsQuiescent (P.state port.now) }
    ensures ok { IfOk result (λ c. (q : ℕ) (i : Shown)
        → (P.state port.now).queue ≡ Some q
        → IsSeenAt q base (P.state port.now) i
        → IsQueueChain geometry i q c) }
    ensures refused { IfErr result (λ e. (e ≡ ChainRefusal.OutOfMemory)
        ⊎ ((q : ℕ)
        → (P.state port.now).queue ≡ Some q
        → RefusesQueue geometry (P.state port.now) q base e)) }
    ensures complete { (q : ℕ) (i : Shown) (ds : List Text)
        → (P.state port.now).queue ≡ Some q
        → IsSeenAt q base (P.state port.now) i
        → IsQueueChain geometry i q ds
        → MatchResult result (λ c. c ≡ ds) (λ e. e ≡ ChainRefusal.OutOfMemory) }
    ensures exact { (q : ℕ) (e : ChainRefusal)
        → (P.state port.now).queue ≡ Some q
        → RefusesQueue geometry (P.state port.now) q base e
        → IsErrOf result e ⊎ IsErrOf result ChainRefusal.OutOfMemory }
{
    match port.role() {
        Role::Queue(queue) => read_own(alloc, geometry, queue, port, base),
        Role::Root => unreachable!(),
    }
}

// The chain of a queue through its port.
fn read_own<P: Port>(
    alloc: Global,
    geometry: Geometry,
    queue: QueueNo,
    port: &P,
    base: TxNo,
) -> Result<Chain, ChainRefusal>
    requires queue { queue < queues_of geometry }
    requires port { IsPortOf geometry (Role.Queue queue) (P.state port.now) }
    requires quiet { IsQuiescent (P.state port.now) }
    ensures ok { IfOk result (IsReadable geometry (P.state port.now) queue base) }
    ensures refused { IfErr result (λ e. (e ≡ ChainRefusal.OutOfMemory)
        ⊎ RefusesQueue geometry (P.state port.now) queue base e) }
{
    let read = read_queue::<P, JournalDescriptors>(alloc, geometry, queue, port, base)?;
    Ok(read.chain)
}

// What a queue shows, where it is readable.
pub fn read_queue<P: Port, D: Descriptors>(
    alloc: Global,
    geometry: Geometry,
    queue: QueueNo,
    port: &P,
    base: TxNo,
) -> Result<QueueRead, ChainRefusal>
    requires queue { queue < queues_of geometry }
    requires port { IsPortOf geometry (Role.Queue queue) (P.state port.now) }
    requires quiet { IsQuiescent (P.state port.now) }
    ensures ok { IfOk result (λ r. IsReadableBy D.accepts geometry
        (P.state port.now) queue base r.chain) }
    ensures greatest { IfOk result (λ r. IsGreatest (P.state port.now) (P.state port.now).head
        (P.state port.now).doorbell r.greatest) }
    ensures refused { IfErr result (λ e. (e ≡ ChainRefusal.OutOfMemory)
        ⊎ RefusesQueueBy D.accepts D.refuses geometry (P.state port.now) queue base e) }
{
    check_words(port)?;
    let newest = read_newest(port)?;
    let chain = follow::<P, D>(alloc, geometry, queue, port, base, newest)?;
    let greatest = read_rung(port)?;
    Ok(QueueRead { chain, greatest })
}

// Checks the words of a queue.
fn check_words<P: Port>(port: &P) -> Result<(), ChainRefusal>
    requires quiet { IsQuiescent (P.state port.now) }
    ensures ok { IfOk result (λ _. AreWords (P.state port.now)) }
    ensures refused { IfErr result (λ e. (e ≡ ChainRefusal.Words) × (AreWords (P.state port.now) → ⊥)) }
{
    let head = port.head();
    let doorbell = port.doorbell();
    if head > doorbell || doorbell - head > u64::from(USABLE_DEPTH) || doorbell > LIMIT {
        return Err(ChainRefusal::Words);
    }
    Ok(())
}

// The entry before the head; before any entry its number is 0.
fn read_newest<P: Port>(port: &P) -> Result<Newest, ChainRefusal>
    requires slots { length (P.state port.now).flushed ≡ depth }
    requires quiet { IsQuiescent (P.state port.now) }
    ensures ok { IfOk result (λ n. IsNewest (P.state port.now) n.number n.lba) }
    ensures refused { IfErr result (RefusesNewest (P.state port.now)) }
{
    let head = port.head();
    if head == 0 {
        return Ok(Newest { number: 0, lba: 0 });
    }
    let last = read_request(port, head - 1)?;
    if !last.commit {
        return Err(ChainRefusal::Commit);
    }
    if last.tx > LIMIT {
        return Err(ChainRefusal::Limit { number: last.tx });
    }
    Ok(Newest {
        number: last.tx,
        lba: last.lba,
    })
}

// The greatest number of the entries from head to doorbell, the last of which must be a commit
// request.
fn read_rung<P: Port>(port: &P) -> Result<u64, ChainRefusal>
    requires slots { length (P.state port.now).flushed ≡ depth }
    requires quiet { IsQuiescent (P.state port.now) }
    requires order { (P.state port.now).head ≤ (P.state port.now).doorbell }
    ensures rung { IfOk result (λ _. AreRung (P.state port.now) (P.state port.now).head
        (P.state port.now).doorbell) }
    ensures whole { IfOk result (λ _. IsRungWhole (P.state port.now)) }
    ensures greatest { IfOk result (IsGreatest (P.state port.now) (P.state port.now).head
        (P.state port.now).doorbell) }
    ensures refused { IfErr result (RefusesRung (P.state port.now)) }
{
    let mut greatest = 0;
    let mut whole = true;
    for at in port.head()..port.doorbell() {
        let request = read_request(port, at)?;
        if request.tx > LIMIT {
            return Err(ChainRefusal::Limit { number: request.tx });
        }
        greatest = greatest.max(request.tx);
        whole = request.commit;
    }
    if !whole {
        return Err(ChainRefusal::Commit);
    }
    Ok(greatest)
}

// The request in the slot of a count.
fn read_request<P: Port>(port: &P, at: u64) -> Result<WriteReq, ChainRefusal>
    requires slots { length (P.state port.now).flushed ≡ depth }
    requires quiet { IsQuiescent (P.state port.now) }
    ensures ok { IfOk result (λ r. says (entry_at (P.state port.now) at) ≡ Some (r.tx, r.lba, r.commit)) }
    ensures refused { IfErr result (RefusesEntry (P.state port.now) at) }
{
    let entry = port.read_slot((at % RING_DEPTH as u64) as u32);
    match read_write(&entry) {
        Ok(request) => Ok(request),
        Err(cause) => Err(ChainRefusal::Entry(cause)),
    }
}

// Follows the chain that the entry before the head leads to.
fn follow<P: Port, D: Descriptors>(
    alloc: Global,
    geometry: Geometry,
    queue: QueueNo,
    port: &P,
    base: TxNo,
    newest: Newest,
) -> Result<Chain, ChainRefusal>
    requires queue { queue < queues_of geometry }
    requires port { IsPortOf geometry (Role.Queue queue) (P.state port.now) }
    requires quiet { IsQuiescent (P.state port.now) }
    ensures ok { IfOk result (IsWholeChainBy D.accepts geometry
        (P.state port.now) queue base newest.number newest.lba) }
    ensures refused { IfErr result (λ e. (e ≡ ChainRefusal.OutOfMemory)
        ⊎ RefusesChainBy D.accepts D.refuses geometry
        (P.state port.now) queue base newest.number newest.lba e) }
{
    if newest.number <= base.0 {
        return Ok(Chain {
            transactions: Vec::new(alloc),
        });
    }
    match area_index(geometry, queue, newest.lba) {
        Some(index) => follow_from::<P, D>(alloc, geometry, queue, port, base, newest, index),
        None => Err(ChainRefusal::AreaPlace { lba: newest.lba }),
    }
}

// The index of a block in the journal area of a queue.
fn area_index(geometry: Geometry, queue: QueueNo, lba: u64) -> Option<u32>
    requires { queue < queues_of geometry }
    ensures { MatchOption result ((place : ℕ)
        → lba ≡ area_lba geometry queue place
        → ⊥) (IsIndex geometry queue lba) }
{
    let area = u64::from(geometry.area());
    let first = u64::from(queue.0) * area;
    if lba < first {
        return None;
    }
    if lba - first >= area {
        return None;
    }
    Some((lba - first) as u32)
}

// Follows a chain from its newest descriptor on, which is above the base.
fn follow_from<P: Port, D: Descriptors>(
    alloc: Global,
    geometry: Geometry,
    queue: QueueNo,
    port: &P,
    base: TxNo,
    start: Newest,
    index: u32,
) -> Result<Chain, ChainRefusal>
    requires queue { queue < queues_of geometry }
    requires port { IsPortOf geometry (Role.Queue queue) (P.state port.now) }
    requires quiet { IsQuiescent (P.state port.now) }
    requires above { base < start.number }
    requires index { IsIndex geometry queue start.lba index }
    ensures ok { IfOk result (IsWholeChainBy D.accepts geometry
        (P.state port.now) queue base start.number start.lba) }
    ensures refused { IfErr result (λ e. (e ≡ ChainRefusal.OutOfMemory)
        ⊎ RefusesChainBy D.accepts D.refuses geometry
        (P.state port.now) queue base start.number start.lba e) }
{
    D::obeys();
    let mut block = Block::zeroed(alloc)?;
    let mut before = Block::zeroed(alloc)?;
    let mut transactions = Vec::new(alloc);
    let mut number = start.number;
    let mut place = PlaceIs::Index(index);
    let mut newest = None;
    while number > base.0 {
        let at = Expect {
            queue,
            number: TxNo(number),
            place,
        };
        let next = read_next::<P, D>(alloc, geometry, port, &at, newest, &mut block, &mut before)?;
        newest = Some(newest.unwrap_or(next.place));
        number = next.prev_number;
        place = PlaceIs::Exact(next.prev_place);
        transactions.push(next)?;
    }
    Ok(Chain { transactions })
}

// The descriptor that is expected, whose copies are in reach of the newest place.
fn read_next<P: Port, D: Descriptors>(
    alloc: Global,
    geometry: Geometry,
    port: &P,
    at: &Expect,
    newest: Option<u64>,
    block: &mut Block,
    before: &mut Block,
) -> Result<Descriptor, ChainRefusal>
    requires queue { at.now.queue < queues_of geometry }
    requires port { IsPortOf geometry (Role.Queue at.now.queue) (P.state port.now) }
    requires quiet { IsQuiescent (P.state port.now) }
    ensures ok { IfOk result (IsFoundNextBy D.accepts geometry
        (P.state port.now) at.now.queue at.now.number at.now.place newest) }
    ensures refused { IfErr result (λ e. (e ≡ ChainRefusal.OutOfMemory)
        ⊎ RefusesNextBy D.accepts D.refuses geometry
        (P.state port.now) at.now.queue at.now.number at.now.place newest e) }
{
    D::obeys();
    let area = u64::from(geometry.area());
    read_area(geometry, at.queue, place_of(at), port, block);
    read_before(geometry, at, port, block, before);
    let next = match D::read(alloc, geometry, at, block, before) {
        Ok(descriptor) => descriptor,
        Err(cause) => return Err(refused_at(at.number.0, cause)),
    };
    let newest = newest.unwrap_or(next.place);
    let oldest = first_place(&next);
    if oldest + area <= newest {
        return Err(ChainRefusal::Span { oldest, newest });
    }
    Ok(next)
}

// Reads the block before the one in which a descriptor is expected, where that one's lists go on there.
fn read_before<P: Port>(
    geometry: Geometry,
    at: &Expect,
    port: &P,
    block: &Block,
    before: &mut Block,
)
    requires queue { at.now.queue < queues_of geometry }
    requires port { IsPortOf geometry (Role.Queue at.now.queue) (P.state port.now) }
    requires quiet { IsQuiescent (P.state port.now) }
    ensures is { further_of (header_of block.now) ≡ 1
        → before.new ≡ before_where geometry (P.state port.now) at.now.place }
    ensures whole { length block.now ≡ 4096 }
{
    if !has_further(block) {
        return;
    }
    let area = u64::from(geometry.area());
    let place = place_of(at) % area + (area - 1);
    read_area(geometry, at.queue, place, port, before);
}

// The place of the first copy of a transaction.
pub fn first_place(d: &Descriptor) -> u64
    requires few { length d.now.logged + length d.now.revoked ≤ list_limit }
    requires fits { length d.now.logged + further d.now ≤ d.now.place }
    ensures { result ≡ first_place d.now }
{
    let logged = d.logged.len() as u64;
    d.place - (logged + further_blocks(logged + d.revoked.len() as u64))
}

// The refusal of the descriptor of a number.
fn refused_at(number: u64, cause: DescriptorRefusal) -> ChainRefusal
    ensures { ((cause ≡ DescriptorRefusal.OutOfMemory) × (result ≡ ChainRefusal.OutOfMemory))
        ⊎ ((cause ≢ DescriptorRefusal.OutOfMemory) × (result ≡ ChainRefusal.Descriptor number cause)) }
{
    match cause {
        DescriptorRefusal::OutOfMemory => ChainRefusal::OutOfMemory,
        cause => ChainRefusal::Descriptor { number, cause },
    }
}

// Where a descriptor is expected.
fn place_of(at: &Expect) -> u64
    ensures { result ≡ where_of at.now.place }
{
    match at.place {
        PlaceIs::Index(index) => u64::from(index),
        PlaceIs::Exact(place) => place,
    }
}

// Reads the block at a place of a queue's journal area.
pub fn read_area<P: Port>(
    geometry: Geometry,
    queue: QueueNo,
    place: u64,
    port: &P,
    block: &mut Block,
)
    requires queue { queue < queues_of geometry }
    requires port { IsPortOf geometry (Role.Queue queue) (P.state port.now) }
    requires quiet { IsQuiescent (P.state port.now) }
    ensures { block.new ≡ block_at (P.state port.now).blocks (place % area_of geometry) }
{
    port.read_block(geometry.area_lba(queue, place), block);
}
