// All the memory of a commit, before it is drawn.
ghost use Rattle.std.specs.Prelude.{◌≡◌, ◌<◌, ◌≤◌, ◌+◌, List, IfOk, None, OnOk, length, slice_get, vec_capacity, vec_len};
ghost use Rattle.mq_blocks.specs.Descriptor.{AreRising};
ghost use Rattle.mq_blocks.specs.Geometry.{homes_of};
ghost use Rattle.mq_blocks.specs.Machine.{Writes};
ghost use Rattle.mq_ledger.specs.History.{blocks_of};
ghost use Rattle.mq_ledger.specs.State.{State};
ghost use Rattle.mq_ledger.specs.declared.tx.Tx.{Tx as Record};
ghost use Rattle.mq_loose.specs.Rows.{row_for};
ghost use Rattle.mq_loose_order.specs.Form.{loose_limit};
ghost use Rattle.mq_queue_side.specs.Stored.{newest_in, next_in, rows_of};
ghost use Rattle.mq_loose_queues.specs.Commits.{IsRequest, MayCommit};
ghost use Rattle.mq_loose_queues.specs.Draws.{IsReadyFor};
ghost use Rattle.mq_loose_queues.specs.Journal.{IsJournal, loose_tx};
ghost use Rattle.mq_loose_queues.specs.Queues.{at_queue, next_number, parts_state};

use crate::changes::last_changes;
use crate::drawing::{blocks_of, last_block, prepare_side};
use crate::parts::Parts;
use mq_blocks::{Block, BlockNo, OutOfMemory, QueueNo, TxNo};
use mq_drive::Port;
use mq_loose::{LooseRow, row_with};
use mq_queue_side::{Prepared, QueueSide};
use std::alloc::Global;

/// A commit with all the memory that it takes.
#[derive(Drop)]
pub struct Ready {
    pub prepared: Prepared,
    pub row: LooseRow,
    /// The last block of its descriptor.
    pub last: Block,
    /// What it writes.
    pub blocks: Vec<BlockNo>,
}

/// The place after a side's last transaction, and its number; 0 and 0 where there is none.
pub fn end_of<P: Port>(side: &QueueSide<P, ()>) -> (u64, TxNo)
    ensures place { result.0 ≡ next_in (rows_of side.now.stored.items) }
    ensures number { result.1 ≡ newest_in (rows_of side.now.stored.items) }
{
    match side.stored().last() {
        Some(last) => (last.next, last.number),
        None => (0, TxNo(0)),
    }
}

impl<P: Port> Parts<P> {
    /// The row of the next transaction, which writes these blocks and frees these on a queue.
    fn next_row(
        &self,
        alloc: Global,
        queue: QueueNo,
        number: TxNo,
        blocks: &[BlockNo],
        frees: &[BlockNo],
    ) -> Result<LooseRow, OutOfMemory>
        requires queue { queue < length self.now.sides.items }
        requires runs { (at_queue (parts_state P.state P.faults self.now) queue).side.kept ≡ None }
        requires few { length blocks.now + length frees.now ≤ loose_limit }
        requires blocks { AreRising 0 (homes_of self.now.geometry) blocks.now }
        requires frees { AreRising 0 (homes_of self.now.geometry) frees.now }
        requires journal { ∥ ((s : State) × (h : List Record)
            × IsJournal s h (parts_state P.state P.faults self.now)) ∥₁ }
        ensures { IfOk result (λ r. (s : State) (h : List Record)
            → IsJournal s h (parts_state P.state P.faults self.now)
            → (ws : Writes)
            → blocks_of ws ≡ blocks.now
            → r ≡ row_for s.base s.starts (loose_tx number queue ws frees.now) h) }
    {
        let base = self.root.base();
        let deps = last_changes(alloc, &self.changes, base, blocks, frees)?;
        let logged = Vec::from_slice(alloc, blocks)?;
        let side = &self.sides[queue.0 as usize];
        let (place, newest) = end_of(side);
        Ok(row_with(
            alloc,
            number,
            queue,
            logged,
            deps,
            side.end(),
            place,
            newest.0,
        ))
    }

    /// Makes room for one more row and its flag.
    fn make_room(&mut self) -> Result<(), OutOfMemory>
        requires { ∥ ((s : State) × (h : List Record)
            × IsJournal s h (parts_state P.state P.faults self.old)) ∥₁ }
        ensures same { parts_state P.state P.faults self.new ≡ parts_state P.state P.faults self.old }
        ensures sides { self.new.sides ≡ self.old.sides }
        ensures rows { OnOk result (vec_len self.new.rows < vec_capacity self.new.rows) }
        ensures flags { OnOk result (vec_len self.new.rows < vec_capacity self.new.flags) }
    {
        self.rows.reserve(1)?;
        self.flags.reserve(1)?;
        Ok(())
    }

    /// Takes all the memory of a commit. A refusal leaves everything as it was.
    pub fn prepare(
        &mut self,
        alloc: Global,
        queue: QueueNo,
        number: TxNo,
        writes: &[(BlockNo, Block)],
        frees: &[BlockNo],
    ) -> Result<Ready, OutOfMemory>
        requires request { IsRequest (parts_state P.state P.faults self.old) queue writes.now frees.now }
        requires may { MayCommit (parts_state P.state P.faults self.old) queue (length writes.now) (length frees.now) }
        requires journal { ∥ ((s : State) × (h : List Record)
            × IsJournal s h (parts_state P.state P.faults self.old)) ∥₁ }
        requires number { number ≡ next_number (parts_state P.state P.faults self.old) }
        ensures ready { IfOk result (IsReadyFor (parts_state P.state P.faults self.old) queue writes.now
            frees.now number) }
        ensures same { parts_state P.state P.faults self.new ≡ parts_state P.state P.faults self.old }
        ensures stored { OnOk result ((s : _)
            → slice_get self.new.sides.items queue ≡ Some s
            → vec_len s.stored < vec_capacity s.stored) }
        ensures rows { OnOk result (vec_len self.new.rows < vec_capacity self.new.rows) }
        ensures flags { OnOk result (vec_len self.new.rows < vec_capacity self.new.flags) }
    {
        let blocks = blocks_of(alloc, writes)?;
        let row = self.next_row(alloc, queue, number, &blocks, frees)?;
        let last = last_block(alloc, &row)?;
        self.make_room()?;
        let prepared = prepare_side(&mut self.sides[queue.0 as usize], alloc, &blocks, writes)?;
        Ok(Ready {
            prepared,
            row,
            last,
            blocks,
        })
    }
}
