// Sending a transaction.
ghost use Rattle.std.specs.Prelude.{◌≡◌, ◌⊎◌, ◌<◌, ◌≤◌, ◌+◌, ◌-◌, ◌++◌, ◌∷◌, ◌^◌, ℕ, [], length, OnOk, OnErr, IfOk, Some, None};
ghost use Rattle.mq_blocks.specs.Limits.{usable_depth};
ghost use Rattle.mq_blocks.specs.Drive.{PortState, staged_end, after_flush, after_ring, counted};
ghost use Rattle.mq_blocks.specs.Geometry.{queues_of};
ghost use Rattle.mq_blocks.specs.Journal.{number_limit};
ghost use Rattle.mq_drive.specs.Steps.{OffCause};
ghost use Rattle.mq_pmr.specs.Runs.{OwnsAll, after_some};
ghost use Rattle.mq_queue_side.specs.Commits.{items_of, size_of};
ghost use Rattle.mq_queue_side.specs.Counts.{SendCounts};
ghost use Rattle.mq_queue_side.specs.Side.{side_state};
ghost use Rattle.mq_queue_side.specs.Told.{KeepsTold};
ghost use Rattle.mq_queue_side.specs.Sent.{AreInZone, Sends, RingsAll, IsCutAt, after_send};

use crate::{Numbered, QueueSide, Why};
use mq_blocks::{Block, Lba, TxNo};
use mq_drive::{Off, Port};
use mq_pmr::PmrQueue;

// Stages, flushes once and rings once.
fn ring_all<P: Port>(
    ring: &mut PmrQueue<P>,
    tx: TxNo,
    items: &mut Vec<(Lba, Block)>,
) -> Result<(), Off>
    requires tx { 1 ≤ tx }
    requires some { 0 < length items.old.items }
    requires room { length items.old.items ≤ usable_depth -
        (staged_end (P.state ring.old.port) - (P.state ring.old.port).head) }
    requires end { staged_end (P.state ring.old.port) + length items.old.items ≤ number_limit }
    requires empty { (P.state ring.old.port).pending ≡ [] }
    requires own { OwnsAll (P.state ring.old.port) items.old.items }
    ensures ok { OnOk result (P.state ring.new.port ≡ after_send (P.state ring.old.port) tx items.old.items) }
    ensures rung { OnOk result (ring.new.rung.items ≡ ring.old.rung.items ++ (record {
      tx = tx;
      end = staged_end
          (after_some (P.state ring.old.port) tx (length items.old.items) items.old.items);
    }) ∷ []) }
    ensures off { OnErr result (IsCutAt (P.state ring.old.port) tx items.old.items (P.state ring.new.port)) }
    ensures same { OnErr result (ring.new.rung.items ≡ ring.old.rung.items) }
    ensures done { ring.new.done ≡ ring.old.done }
    ensures cause { OffCause result (P.faults ring.old.port) (P.faults ring.new.port) }
    ensures own { (ring.new.geometry ≡ ring.old.geometry) × (ring.new.queue ≡ ring.old.queue) }
{
    ring.stage_all(tx, items)?;
    ring.ring_once()
}

impl<P: Port, E> QueueSide<P, E> {
    /// Sends the transaction that was numbered last: stages the copies of its logged blocks, then its
    /// direct blocks, and its descriptor last, flushes once and rings once. After `Off` the side keeps
    /// this transaction as cut.
    pub fn send(&mut self, numbered: Numbered) -> Result<TxNo, Off>
        requires queue { numbered.queue ≡ self.old.pmr.queue }
        requires queues { self.old.pmr.queue < queues_of self.old.pmr.geometry }
        requires number { 1 ≤ numbered.number }
        requires none { self.old.kept ≡ None }
        requires room { size_of numbered ≤ usable_depth -
            (staged_end (P.state self.old.pmr.port) - (P.state self.old.pmr.port).head) }
        requires end { staged_end (P.state self.old.pmr.port) + size_of numbered ≤ number_limit }
        requires direct { AreInZone self.old.pmr.geometry numbered.queue numbered.commit.direct }
        ensures answer { IfOk result (λ tx. tx ≡ numbered.number) }
        ensures ok { OnOk result (P.state self.new.pmr.port ≡ after_send (P.state self.old.pmr.port)
            numbered.number (items_of self.old.pmr.geometry numbered)) }
        ensures off { OnErr result (IsCutAt (P.state self.old.pmr.port) numbered.number
            (items_of self.old.pmr.geometry numbered) (P.state self.new.pmr.port)) }
        ensures cause { OffCause result (P.faults self.old.pmr.port) (P.faults self.new.pmr.port) }
        ensures none { OnOk result (self.new.kept ≡ None) }
        ensures kept { OnErr result (self.new.kept ≡ Some (numbered.number, Why.Off)) }
        ensures stays { Sends (side_state P.state P.faults self.old) numbered
            (side_state P.state P.faults self.new) }
        ensures whole { OnOk result (RingsAll (side_state P.state P.faults self.old) numbered
            (side_state P.state P.faults self.new)) }
        ensures counts { SendCounts (side_state P.state P.faults self.old) numbered
            (side_state P.state P.faults self.new) }
        ensures told { KeepsTold (side_state P.state P.faults self.old)
            (side_state P.state P.faults self.new) }
        ensures done { self.new.done ≡ self.old.done }
        ensures stored { self.new.stored ≡ self.old.stored }
        ensures own { (self.new.pmr.geometry ≡ self.old.pmr.geometry)
            × (self.new.pmr.queue ≡ self.old.pmr.queue) }
    {
        let tx = numbered.number();
        let mut items = numbered.into_items(self.pmr.geometry());
        if let Err(off) = ring_all(&mut self.pmr, tx, &mut items) {
            self.kept = Some((tx, Why::Off));
            return Err(off);
        }
        Ok(tx)
    }
}
