// A queue's side.
ghost use Rattle.std.specs.Prelude.{◌≡◌, ◌↔◌, [], ◌≤◌, ◌-◌, ◌^◌, IfOk, IfErr, IsTrue, None};
ghost use Rattle.mq_blocks.specs.Drive.{staged_end};
ghost use Rattle.mq_blocks.specs.Limits.{usable_depth};
ghost use Rattle.mq_queue_side.specs.Quiet.{IsClearUnlessKept};
ghost use Rattle.mq_queue_side.specs.Stored.{rows_of, next_in};

use crate::{Drawn, Why};
use mq_blocks::{Geometry, OutOfMemory, QueueNo, TxNo, USABLE_DEPTH};
use mq_drive::Port;
use mq_pmr::PmrQueue;
use std::alloc::Global;

/// A queue's ring, the transactions that were drawn on the queue, the last number of which the side
/// knows that it is done, and the failure that it keeps.
///
/// An entry is kept for each transaction, of a type about which the side knows nothing.
#[derive(Drop)]
pub struct QueueSide<P: Port, E> {
    pub(crate) pmr: PmrQueue<P>,
    // the oldest first
    pub(crate) stored: Vec<Drawn<E>>,
    pub(crate) done: TxNo,
    pub(crate) kept: Option<(TxNo, Why)>,
    ghost clear: { IsClearUnlessKept kept (P.state pmr.port) },
    ghost places: { next_in (rows_of stored.items) ≤ 2 ^ 62 },
}

impl<P: Port, E> QueueSide<P, E> {
    /// The side of a queue on which nothing was staged since its ring was opened. Places start at 0.
    pub fn open(
        alloc: Global,
        pmr: PmrQueue<P>,
    ) -> Result<QueueSide<P, E>, (PmrQueue<P>, OutOfMemory)>
        requires pending { (P.state pmr.port).pending ≡ [] }
        requires failed { (P.state pmr.port).failed ≡ [] }
        ensures pmr { IfOk result (λ s. s.pmr ≡ pmr) }
        ensures stored { IfOk result (λ s. s.stored.items ≡ []) }
        ensures done { IfOk result (λ s. s.done ≡ 0) }
        ensures kept { IfOk result (λ s. s.kept ≡ None) }
        ensures err { IfErr result (λ e. e.0 ≡ pmr) }
    {
        let stored = match Vec::with_capacity(alloc, 16) {
            Ok(stored) => stored,
            Err(_) => return Err((pmr, OutOfMemory)),
        };
        Ok(QueueSide {
            pmr,
            stored,
            done: TxNo(0),
            kept: None,
        })
    }

    /// The geometry of the drive.
    pub fn geometry(&self) -> Geometry
        ensures { result ≡ self.now.pmr.geometry }
    {
        self.pmr.geometry()
    }

    /// The number of its queue on the drive.
    pub fn queue(&self) -> QueueNo
        ensures { result ≡ self.now.pmr.queue }
    {
        self.pmr.queue()
    }

    /// The count of the next entry.
    pub fn end(&self) -> u64
        ensures { result ≡ staged_end (P.state self.now.pmr.port) }
    {
        self.pmr.end()
    }

    /// How many entries have room in the ring.
    pub fn room(&self) -> u32
        ensures { result ≡ usable_depth - (staged_end (P.state self.now.pmr.port)
            - (P.state self.now.pmr.port).head) }
    {
        self.pmr.room()
    }

    /// Whether nothing is under way: the head, as last flushed, has passed all that was staged.
    pub fn is_at_rest(&self) -> bool
        ensures { IsTrue result ↔ (staged_end (P.state self.now.pmr.port)
            ≤ (P.state self.now.pmr.port).head) }
    {
        self.pmr.room() == USABLE_DEPTH
    }

    /// The failure that stopped the queue, if there is one: the least transaction of which a command
    /// failed, or the one whose send was cut.
    pub fn kept(&self) -> Option<(TxNo, Why)>
        ensures { result ≡ self.now.kept }
    {
        self.kept
    }

    /// The last transaction of which the side knows that it is done, or 0.
    pub fn done(&self) -> TxNo
        ensures { result ≡ self.now.done }
    {
        self.done
    }

    /// The transactions that were drawn on the queue, the oldest first.
    pub fn stored(&self) -> &[Drawn<E>]
        ensures { result.now ≡ self.now.stored.items }
    {
        &self.stored
    }

    /// The ring. What was stored is dropped.
    pub fn into_pmr(self) -> PmrQueue<P>
    where
        E: Drop,
        ensures { result ≡ self.pmr }
    {
        self.pmr
    }
}
