// Which transactions stand: those that depend on such alone, or on numbers up to the base.
ghost use Rattle.std.specs.Prelude.{◌≡◌, ◌⊎◌, ◌<◌, ◌≤◌, ◌%◌, ◌||◌, ℕ, IfOk, IfErr, length, nat_le};
ghost use Rattle.std.specs.List.Sorted.{IsNonDecreasing};
ghost use Rattle.mq_area.specs.Reading.{header_of};
ghost use Rattle.mq_blocks.specs.Geometry.{area_of, homes_of};
ghost use Rattle.mq_blocks.specs.Journal.{is_among};
ghost use Rattle.mq_loose_order.specs.Dependence.{all_in};
ghost use Rattle.mq_loose_order.specs.Form.{loose_limit};
ghost use Rattle.mq_loose_recover.specs.Choices.{AreListedIn, IsLooselyChosen};
ghost use Rattle.mq_loose_recover.specs.Reading.{deps_of_block};
ghost use Rattle.mq_recover.specs.Drives.{IsQuiescentDrive, drive_of};
ghost use Rattle.mq_recover.specs.Merges.{RefusesTwice};
ghost use Rattle.mq_recover.specs.Queues.{AreChains};

use mq_area::{HEADER, read_header};
use mq_blocks::bytes::u64_at;
use mq_blocks::{Block, Geometry, QueueNo, TxNo};
use mq_drive::{Port, Ports};
use mq_recover::{
    Chain, CopyPlace, ImageFault, no_copies, read_copy_place, take_oldest, take_over,
};
use std::alloc::Global;

// Where the copies stand of the transactions that stand, and their numbers, which rise.
#[derive(Drop)]
pub struct LooseChosen {
    pub copies: Vec<Option<CopyPlace>>,
    pub set: Vec<TxNo>,
}

// Goes through the chains of all queues in rising order of numbers, and finds the transactions that stand
// and their copies. The numbers on which each depends are read again from its block.
pub fn choose<P: Port>(
    alloc: Global,
    geometry: Geometry,
    ports: &Ports<P>,
    chains: Vec<Chain>,
    base: u64,
) -> Result<LooseChosen, ImageFault>
    requires still { IsQuiescentDrive geometry (drive_of P.state ports.now) }
    requires chains { AreChains (homes_of geometry) base chains.items }
    requires count { length chains.items ≡ geometry.queues }
    requires listed { AreListedIn geometry (drive_of P.state ports.now) chains.items }
    ensures ok { IfOk result (IsLooselyChosen geometry (drive_of P.state ports.now) base chains.items) }
    ensures refused { IfErr result (λ e. (e ≡ ImageFault.OutOfMemory) ⊎ RefusesTwice chains.items e) }
{
    let mut chains = chains;
    let mut copies = no_copies(alloc, geometry)?;
    let mut set = Vec::new(alloc);
    let mut block = Block::zeroed(alloc)?;
    while let Some(next) = take_oldest(&mut chains)? {
        let place = CopyPlace {
            queue: QueueNo(next.queue),
            place: next.place,
        };
        read_copy_place(geometry, ports, place, &mut block);
        if is_met(block.bytes(), base, &set) {
            take_over(&mut copies, &next);
            set.push(TxNo(next.number))?;
        }
    }
    Ok(LooseChosen { copies, set })
}

// Whether each number that a block lists is up to the base, or one of these.
fn is_met(block: &[u8], base: u64, set: &[TxNo]) -> bool
    requires whole { length block.now ≡ 4096 }
    requires logged { (header_of block.now).logged ≤ loose_limit }
    requires deps { (header_of block.now).revoked ≤ loose_limit }
    requires rising { IsNonDecreasing set.now }
    ensures { result ≡ all_in (λ n. nat_le n base || is_among n set.now) (deps_of_block block.now) }
{
    let header = read_header(block);
    let first = HEADER + 4 * header.logged as usize;
    for i in 0..header.revoked as usize {
        if !is_standing(u64_at(block, first + 8 * i), base, set) {
            return false;
        }
    }
    true
}

// Whether a number is up to the base, or one of these.
fn is_standing(number: u64, base: u64, set: &[TxNo]) -> bool
    requires rising { IsNonDecreasing set.now }
    ensures { result ≡ (nat_le number base || is_among number set.now) }
{
    number <= base || is_in(set, number)
}

// Whether a number is one of these, which rise.
fn is_in(set: &[TxNo], number: u64) -> bool
    requires rising { IsNonDecreasing set.now }
    ensures { result ≡ is_among number set.now }
{
    set.binary_search_by_key(&number, |other| other.0).is_ok()
}
