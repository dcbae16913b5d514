// A journal that keeps two blocks together, on one queue of a drive.
ghost use Rattle.std.specs.Prelude.{◌≡◌, ◌<◌, [], ◌∷◌, IfOk};
ghost use Rattle.mq_blocks.specs.Drive.{IsQuiescent};
ghost use Rattle.mq_blocks.specs.Geometry.{homes_of, queues_of};
ghost use Rattle.mq_drive.specs.Start.{IsPortOf};
ghost use Rattle.mq_drive.specs.declared.role.Role.TheVariants.{Queue};

use mq_blocks::{Block, BlockNo, Geometry, OutOfMemory, QueueNo, TxNo};
use mq_drive::Port;
use mq_pages::{Kind, Write};
use mq_pmr::PmrQueue;
use mq_queue_side::{Fit, QueueSide};
use mq_revoke::Placement;
use std::alloc::Global;

/// One of the two blocks, by its number among the home blocks: it is in the metadata region.
pub const FIRST: BlockNo = BlockNo(5);

/// The other one, which is in the zone of queue 0.
pub const SECOND: BlockNo = BlockNo(20);

/// A journal of the two blocks, on queue 0 of a drive.
#[derive(Drop)]
pub struct Journal<P: Port> {
    side: QueueSide<P, ()>,
    ghost queue: { side.pmr.queue < queues_of side.pmr.geometry },
    ghost homes: { 20 < homes_of side.pmr.geometry },
}

impl<P: Port + Drop> Journal<P> {
    /// A journal over the queue's port. The drive was recovered, nothing is under way on it, and its base is
    /// 0, so that the first transaction has the number 1.
    pub fn open(alloc: Global, geometry: Geometry, port: P) -> Result<Journal<P>, OutOfMemory>
        requires homes { 20 < homes_of geometry }
        requires port { IsPortOf geometry (Queue 0) (P.state port) }
        requires quiet { IsQuiescent (P.state port) }
        requires recovered { (P.state port).head ≡ (P.state port).doorbell }
        ensures own { IfOk result (λ j. (j.side.pmr.geometry ≡ geometry) × (j.side.pmr.queue ≡ 0)) }
    {
        let ring = match PmrQueue::open(alloc, port, geometry, QueueNo(0)) {
            Ok(ring) => ring,
            Err((_, full)) => return Err(full),
        };
        match QueueSide::open(alloc, ring) {
            Ok(side) => Ok(Journal { side }),
            Err((_, full)) => Err(full),
        }
    }

    /// Writes a text to both blocks, as one transaction. Returns whether it is acknowledged.
    pub fn commit(&mut self, alloc: Global, text: &str) -> Result<bool, OutOfMemory>
        ensures own { (self.new.side.pmr.geometry ≡ self.old.side.pmr.geometry)
            × (self.new.side.pmr.queue ≡ self.old.side.pmr.queue) }
    {
        let plan = both_logged(alloc)?;
        let writes = [write(alloc, FIRST, text)?, write(alloc, SECOND, text)?];
        if self.side.kept().is_some() || !self.side.is_bounded(&plan) {
            return Ok(false);
        }
        if self.side.fits(&plan, TxNo(0)) != Fit::Yes {
            return Ok(false);
        }
        let prepared = self.side.prepare(alloc, &writes, &plan)?;
        let number = TxNo(self.side.stored().len() as u64 + 1);
        let numbered = self.side.numbered(prepared, number, ());
        // Copies and descriptor are staged and flushed, and one doorbell write makes them visible.
        if self.side.send(numbered).is_err() {
            return Ok(false);
        }
        // The drive executes the commands. Then the head is stored behind them and flushed.
        Ok(self.side.drain().is_ok())
    }

    /// The queue's port.
    pub fn into_port(self) -> P
        ensures { IsPortOf self.side.pmr.geometry (Queue self.side.pmr.queue) (P.state result) }
    {
        let Journal { side } = self;
        side.into_pmr().into_port()
    }
}

// The plan by which both blocks are logged: their copies go to the journal area, and recovery writes them home.
fn both_logged(alloc: Global) -> Result<Placement, OutOfMemory>
    ensures { IfOk result (λ p. (p.logged ≡ 5 ∷ 20 ∷ []) × (p.direct ≡ []) × (p.revoked ≡ [])) }
{
    let mut plan = Placement::new(alloc)?;
    plan.logged.push(FIRST)?;
    plan.logged.push(SECOND)?;
    Ok(plan)
}

// The write of a block that begins with a text.
fn write(alloc: Global, block: BlockNo, text: &str) -> Result<Write, OutOfMemory>
    ensures { IfOk result (λ w. w.block ≡ block) }
{
    let mut content = Block::zeroed(alloc)?;
    for (byte, letter) in content.bytes_mut().iter_mut().zip(text.as_bytes()) {
        *byte = *letter;
    }
    Ok(Write {
        block,
        kind: Kind::Data,
        content,
    })
}
