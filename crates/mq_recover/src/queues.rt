// The chains of all queues.
ghost use Rattle.std.specs.Prelude.{◌≡◌, ◌≢◌, ◌⊎◌, IfOk, IfErr, IsErrOf, max};
ghost use Rattle.mq_blocks.specs.Geometry.{homes_of};
ghost use Rattle.mq_recover.specs.Drives.{IsQuiescentDrive, drive_of};
ghost use Rattle.mq_recover.specs.Queues.{AreChains, AreChainsRead, AreChainsReadBy, AreReadBy, RefusesReading, RefusesReadingBy, newest_number};
ghost use Rattle.mq_recover.specs.Refusals.{RefusesSomeBy};

use crate::chain::{Chain, LIMIT, read_queue};
use crate::descriptors::{Descriptors, JournalDescriptors};
use crate::refusal::{ChainRefusal, ImageFault};
use mq_blocks::{Geometry, QueueNo, TxNo};
use mq_drive::{Port, Ports};
use std::alloc::Global;

/// What the queues show, where all are readable.
#[derive(Drop)]
pub struct QueuesRead {
    /// The chain of each queue.
    pub chains: Vec<Chain>,
    /// The greatest number that the image shows.
    pub top: TxNo,
}

/// Reads the chains of all queues of a drive, in rising order of queues. Each descriptor is read once.
pub fn read_chains<P: Port>(
    alloc: Global,
    geometry: Geometry,
    ports: &Ports<P>,
) -> Result<QueuesRead, ImageFault>
    requires { IsQuiescentDrive geometry (drive_of P.state ports.now) }
    ensures ok { IfOk result (AreChainsRead geometry (drive_of P.state ports.now)) }
    ensures chains { IfOk result (λ r. AreChains (homes_of geometry)
        (P.state ports.now.root).base r.chains.items) }
    ensures refused { IfErr result (λ e. (e ≡ ImageFault.OutOfMemory)
        ⊎ RefusesReading geometry (drive_of P.state ports.now) e) }
    ensures exact { (e : ImageFault)
        → RefusesReading geometry (drive_of P.state ports.now) e
        → IsErrOf result e ⊎ IsErrOf result ImageFault.OutOfMemory }
{
    read_chains_by::<P, JournalDescriptors>(alloc, geometry, ports)
}

/// Reads the chains of all queues of a drive whose descriptors are of this kind, in rising order of queues.
pub fn read_chains_by<P: Port, D: Descriptors>(
    alloc: Global,
    geometry: Geometry,
    ports: &Ports<P>,
) -> Result<QueuesRead, ImageFault>
    requires { IsQuiescentDrive geometry (drive_of P.state ports.now) }
    ensures ok { IfOk result (AreChainsReadBy D.accepts geometry (drive_of P.state ports.now)) }
    ensures chains { IfOk result (λ r. AreChains (homes_of geometry)
        (P.state ports.now.root).base r.chains.items) }
    ensures refused { IfErr result (λ e. (e ≡ ImageFault.OutOfMemory)
        ⊎ RefusesReadingBy D.accepts D.refuses geometry (drive_of P.state ports.now) e) }
    ensures exact { (e : ImageFault)
        → RefusesReadingBy D.accepts D.refuses geometry (drive_of P.state ports.now) e
        → IsErrOf result e ⊎ IsErrOf result ImageFault.OutOfMemory }
{
    let base = ports.root.base();
    if base > LIMIT {
        return Err(ImageFault::Limit { base });
    }
    D::obeys();
    read_queues::<P, D>(alloc, geometry, ports, TxNo(base))
}

// What all queues show over this base, in rising order of queues.
fn read_queues<P: Port, D: Descriptors>(
    alloc: Global,
    geometry: Geometry,
    ports: &Ports<P>,
    base: TxNo,
) -> Result<QueuesRead, ImageFault>
    requires still { IsQuiescentDrive geometry (drive_of P.state ports.now) }
    requires base { base ≡ (P.state ports.now.root).base }
    ensures ok { IfOk result (AreReadBy D.accepts geometry (drive_of P.state ports.now)) }
    ensures refused { IfErr result (λ e. (e ≡ ImageFault.OutOfMemory)
        ⊎ RefusesSomeBy D.accepts D.refuses geometry (drive_of P.state ports.now) e) }
{
    D::obeys();
    let mut chains = Vec::new(alloc);
    let mut top = base.0;
    for (q, port) in ports.queues.iter().enumerate() {
        let queue = QueueNo(q as u32);
        let read = match read_queue::<P, D>(alloc, geometry, queue, port, base) {
            Ok(read) => read,
            Err(cause) => return Err(bad_queue(queue, cause)),
        };
        top = top.max(top_of(&read.chain, base.0, read.greatest));
        chains.push(read.chain)?;
    }
    Ok(QueuesRead {
        chains,
        top: TxNo(top),
    })
}

// The fault of an image for a queue.
fn bad_queue(queue: QueueNo, cause: ChainRefusal) -> ImageFault
    ensures { ((cause ≡ ChainRefusal.OutOfMemory) × (result ≡ ImageFault.OutOfMemory))
        ⊎ ((cause ≢ ChainRefusal.OutOfMemory) × (result ≡ ImageFault.Bad queue cause)) }
{
    match cause {
        ChainRefusal::OutOfMemory => ImageFault::OutOfMemory,
        cause => ImageFault::Bad { queue, cause },
    }
}

// The greatest of a base, the numbers of a chain above it, and one more.
fn top_of(chain: &Chain, base: u64, greatest: u64) -> u64
    ensures { result ≡ max (newest_number base chain.now) greatest }
{
    let transactions = &chain.transactions;
    let newest = match transactions.first() {
        Some(d) => d.number,
        None => base,
    };
    newest.max(greatest)
}
