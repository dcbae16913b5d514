// A commit: why it is refused, what it takes, and its way into the ring.
ghost use Rattle.std.specs.Prelude.{◌≡◌, ◌<◌, ◌≤◌, ◌+◌, ◌-◌, ◌^◌, true, false, List, [], ◌∷◌, ◌++◌, IfOk, MatchOption, None, OnErr, OnOk, Some, length, slice_get, vec_capacity, vec_len};
ghost use Rattle.mq_blocks.specs.Descriptor.{AreRising};
ghost use Rattle.mq_blocks.specs.Drive.{staged_end};
ghost use Rattle.mq_blocks.specs.Geometry.{queues_of};
ghost use Rattle.mq_blocks.specs.Journal.{number_limit};
ghost use Rattle.mq_blocks.specs.Limits.{usable_depth};
ghost use Rattle.mq_drive.specs.Steps.{OffCause};
ghost use Rattle.mq_ledger.specs.State.{State};
ghost use Rattle.mq_ledger.specs.declared.tx.Tx.{Tx as Record};
ghost use Rattle.mq_queue_side.specs.Commits.{descriptor_size, further_of, items_of};
ghost use Rattle.mq_queue_side.specs.Sent.{IsCutAt, RingsAll, Sends, after_send};
ghost use Rattle.mq_queue_side.specs.Side.{side_state};
ghost use Rattle.mq_queue_side.specs.Stored.{next_in, rows_of};
ghost use Rattle.mq_queue_side.specs.declared.answers.Why.TheVariants as why;
ghost use Rattle.mq_loose_queues.specs.Changes.{with_changes};
ghost use Rattle.mq_loose_queues.specs.Commits.{Commits, IsCutOn, IsDrawn, IsRefusedFor, IsRequest, IsRungOn, MayCommit};
ghost use Rattle.mq_loose_queues.specs.Draws.{IsReadyFor, numbered_on};
ghost use Rattle.mq_loose_queues.specs.Journal.{IsJournal};
ghost use Rattle.mq_loose_queues.specs.Queues.{at_queue, next_number, parts_state};

use crate::LooseRefusal;
use crate::changes::note;
use crate::parts::Parts;
use crate::prepare::{Ready, end_of};
use crate::settled::refresh;
use mq_blocks::{Block, BlockNo, QueueNo, TxNo};
use mq_drive::{Off, Port};
use mq_loose::LooseRow;
use mq_queue_side::{Prepared, QueueSide};
use std::alloc::Global;

/// The most blocks that a commit names.
const NAMED_LIMIT: u64 = 256;

/// Numbers what was prepared on a side, puts the last block of its descriptor into it, and sends it.
fn send_on<P: Port>(
    side: &mut QueueSide<P, ()>,
    prepared: Prepared,
    number: TxNo,
    last: Block,
) -> Result<TxNo, Off>
    requires reserved { vec_len side.old.stored < vec_capacity side.old.stored }
    requires places { next_in (rows_of side.old.stored.items)
        + (length prepared.logged + further_of prepared) < 2 ^ 62 }
    requires queue { side.old.pmr.queue < queues_of side.old.pmr.geometry }
    requires number { 1 ≤ number }
    requires none { side.old.kept ≡ None }
    requires plain { prepared.direct ≡ [] }
    requires room { length prepared.logged + length prepared.direct
        + descriptor_size (length prepared.logged) (length prepared.revoked)
        ≤ usable_depth - (staged_end (P.state side.old.pmr.port) - (P.state side.old.pmr.port).head) }
    requires end { staged_end (P.state side.old.pmr.port) + (length prepared.logged + length prepared.direct
        + descriptor_size (length prepared.logged) (length prepared.revoked)) ≤ number_limit }
    ensures answer { IfOk result (λ tx. tx ≡ number) }
    ensures ok { OnOk result (P.state side.new.pmr.port ≡ after_send (P.state side.old.pmr.port) number
        (items_of side.old.pmr.geometry (numbered_on side.old.pmr.queue number (rows_of side.old.stored.items)
        prepared last))) }
    ensures off { OnErr result (IsCutAt (P.state side.old.pmr.port) number
        (items_of side.old.pmr.geometry (numbered_on side.old.pmr.queue number (rows_of side.old.stored.items)
        prepared last)) (P.state side.new.pmr.port)) }
    ensures cause { OffCause result (P.faults side.old.pmr.port) (P.faults side.new.pmr.port) }
    ensures none { OnOk result (side.new.kept ≡ None) }
    ensures kept { OnErr result (side.new.kept ≡ Some (number, why.Off)) }
    ensures stays { Sends (side_state P.state P.faults side.old)
        (numbered_on side.old.pmr.queue number (rows_of side.old.stored.items) prepared last)
        (side_state P.state P.faults side.new) }
    ensures whole { OnOk result (RingsAll (side_state P.state P.faults side.old)
        (numbered_on side.old.pmr.queue number (rows_of side.old.stored.items) prepared last)
        (side_state P.state P.faults side.new)) }
    ensures rows { rows_of side.new.stored.items ≡ (record {
      number = number;
      next =
          next_in (rows_of side.old.stored.items) + (length prepared.logged
          + descriptor_size (length prepared.logged) (length prepared.revoked));
    }) ∷ rows_of side.old.stored.items }
{
    let numbered = side.numbered(prepared, number, ()).with_last(last);
    side.send(numbered)
}

impl<P: Port> Parts<P> {
    /// Why a commit of so many writes and frees is refused, if it is.
    fn refusal(&self, queue: QueueNo, writes: u64, frees: u64) -> Option<LooseRefusal>
        requires queue { queue < length self.now.sides.items }
        requires few { writes + frees < 2 ^ 64 }
        ensures { MatchOption result
            (MayCommit (parts_state P.state P.faults self.now) queue writes frees)
            (IsRefusedFor (parts_state P.state P.faults self.now) queue writes frees) }
    {
        let side = &self.sides[queue.0 as usize];
        if let Some((tx, _)) = side.kept() {
            return Some(LooseRefusal::Stopped { tx });
        }
        let count = writes + frees;
        if count > NAMED_LIMIT {
            return Some(LooseRefusal::TooLarge {
                count,
                limit: NAMED_LIMIT,
            });
        }
        let (place, _) = end_of(side);
        if place + (writes + 1) > u64::from(self.geometry.area()) {
            return Some(LooseRefusal::Area);
        }
        if writes + 1 > u64::from(side.room()) {
            return Some(LooseRefusal::Ring);
        }
        None
    }

    /// Notes a transaction of this number in the table and among the rows.
    fn note_commit(&mut self, row: LooseRow, number: TxNo, blocks: &[BlockNo], frees: &[BlockNo])
        requires room { vec_len self.old.rows < vec_capacity self.old.rows }
        requires blocks { AreRising 0 (length self.old.changes.items) blocks.now }
        requires frees { AreRising 0 (length self.old.changes.items) frees.now }
        ensures changes { self.new.changes.items ≡ with_changes frees.now (record {
          number = number;
          is_there = false;
        }) (with_changes blocks.now (record {
          number = number;
          is_there = true;
        }) self.old.changes.items) }
        ensures rows { self.new.rows.items ≡ self.old.rows.items ++ row ∷ [] }
        ensures sides { self.new.sides ≡ self.old.sides }
        ensures flags { self.new.flags ≡ self.old.flags }
        ensures root { self.new.root ≡ self.old.root }
        ensures geometry { self.new.geometry ≡ self.old.geometry }
    {
        note(&mut self.changes, blocks, number, true);
        note(&mut self.changes, frees, number, false);
        self.rows.push_reserved(row);
    }

    /// Draws a commit that is ready, and sends it.
    fn draw(
        &mut self,
        queue: QueueNo,
        number: TxNo,
        ready: Ready,
        frees: &[BlockNo],
    ) -> Result<TxNo, Off>
        requires request { IsRequest (parts_state P.state P.faults self.old) queue ready.prepared.logged frees.now }
        requires may { MayCommit (parts_state P.state P.faults self.old) queue (length ready.prepared.logged)
            (length frees.now) }
        requires journal { ∥ ((s : State) × (h : List Record)
            × IsJournal s h (parts_state P.state P.faults self.old)) ∥₁ }
        requires few { length self.old.rows.items < 2 ^ 62 }
        requires number { number ≡ next_number (parts_state P.state P.faults self.old) }
        requires ready { IsReadyFor (parts_state P.state P.faults self.old) queue ready.prepared.logged
            frees.now number ready }
        requires stored { (s : _)
            → slice_get self.old.sides.items queue ≡ Some s
            → vec_len s.stored < vec_capacity s.stored }
        requires rows { vec_len self.old.rows < vec_capacity self.old.rows }
        requires flags { vec_len self.old.rows < vec_capacity self.old.flags }
        ensures drawn { IsDrawn (parts_state P.state P.faults self.old) queue ready.prepared.logged frees.now
            (parts_state P.state P.faults self.new) }
        ensures answer { IfOk result (λ tx. tx ≡ number) }
        ensures rung { OnOk result (IsRungOn (at_queue (parts_state P.state P.faults self.old) queue)
            ready.prepared.logged number (at_queue (parts_state P.state P.faults self.new) queue)) }
        ensures cut { OnErr result (IsCutOn (at_queue (parts_state P.state P.faults self.old) queue)
            ready.prepared.logged number (at_queue (parts_state P.state P.faults self.new) queue)) }
    {
        let base = self.root.base();
        let Ready {
            prepared,
            row,
            last,
            blocks,
        } = ready;
        self.note_commit(row, number, &blocks, frees);
        let answer = send_on(&mut self.sides[queue.0 as usize], prepared, number, last);
        refresh(&mut self.flags, &self.rows, &self.sides, base);
        answer
    }

    /// Commits these writes and frees on a queue.
    pub fn commit(
        &mut self,
        alloc: Global,
        queue: QueueNo,
        writes: &[(BlockNo, Block)],
        frees: &[BlockNo],
    ) -> Result<TxNo, LooseRefusal>
        requires request { IsRequest (parts_state P.state P.faults self.old) queue writes.now frees.now }
        requires journal { ∥ ((s : State) × (h : List Record)
            × IsJournal s h (parts_state P.state P.faults self.old)) ∥₁ }
        requires few { length self.old.rows.items < 2 ^ 62 }
        ensures { Commits (parts_state P.state P.faults self.old) queue writes.now frees.now result
            (parts_state P.state P.faults self.new) }
    {
        if let Some(refusal) = self.refusal(queue, writes.len() as u64, frees.len() as u64) {
            return Err(refusal);
        }
        let number = self.next_number();
        let ready = self.prepare(alloc, queue, number, writes, frees)?;
        match self.draw(queue, number, ready, frees) {
            Ok(tx) => Ok(tx),
            Err(Off) => Err(LooseRefusal::Off { tx: number }),
        }
    }
}
