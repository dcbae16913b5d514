// Which numbers are settled: done, as all on which they depend are, step by step.
ghost use Rattle.std.specs.Prelude.{◌≡◌, ◌<◌, ◌≤◌, ◌+◌, ◌&&◌, ℕ, true, List, [], length, reverse, vec_capacity};
ghost use Rattle.mq_blocks.specs.Journal.{is_among};
ghost use Rattle.mq_ledger.specs.History.{AreNumbered};
ghost use Rattle.mq_ledger.specs.State.{State, is_done};
ghost use Rattle.mq_ledger.specs.declared.tx.Tx.{Tx as Record};
ghost use Rattle.mq_loose.specs.Rows.{AreRows, flag_of, is_past, loose_rows};
ghost use Rattle.mq_loose_order.specs.Dependence.{all_in, closure};
ghost use Rattle.mq_loose.specs.Guards.{settled};
ghost use Rattle.mq_loose_queues.specs.Drains.{IsDrainOf};
ghost use Rattle.mq_loose_queues.specs.Journal.{IsJournal, state_over};
ghost use Rattle.mq_loose_queues.specs.Queues.{parts_state};
ghost use Rattle.mq_loose_queues.specs.Rings.{AreRings, IsRingIn, ports_in};

use crate::parts::Parts;
use mq_blocks::{QueueNo, TxNo, USABLE_DEPTH};
use mq_drive::Port;
use mq_loose::{LooseRow, are_flagged};
use mq_queue_side::{Cause, QueueSide};

/// The flushed head of a side's queue.
fn head_of<P: Port>(side: &QueueSide<P, ()>) -> u64
    requires { IsRingIn P.state side.now }
    ensures { result ≡ (P.state side.now.pmr.port).head }
{
    side.end() - u64::from(USABLE_DEPTH - side.room())
}

/// Whether the flushed head of a transaction's queue is past it.
fn is_row_done<P: Port>(row: &LooseRow, sides: &[QueueSide<P, ()>]) -> bool
    requires queue { row.now.queue < length sides.now }
    requires rings { AreRings P.state sides.now }
    ensures { result ≡ is_past row.now (ports_in P.state sides.now) }
{
    let side = &sides[row.queue.0 as usize];
    row.end <= head_of(side)
}

/// Whether a transaction is settled, where these are the flags of all before it.
fn row_flag<P: Port>(row: &LooseRow, sides: &[QueueSide<P, ()>], flags: &[bool], base: TxNo) -> bool
    requires queue { row.now.queue < length sides.now }
    requires rings { AreRings P.state sides.now }
    requires deps { (n : ℕ) → is_among n row.now.deps ≡ true → (base < n) × (n ≤ base + length flags.now) }
    ensures { result ≡ (is_past row.now (ports_in P.state sides.now)
        && all_in (flag_of base flags.now) row.now.deps) }
{
    is_row_done(row, sides) && are_flagged(flags, base.0, row.deps.as_slice())
}

/// Of each transaction, the oldest first, whether it is settled. Each is looked at once, with those on which it
/// depends. It takes no memory.
pub fn refresh<P: Port>(
    flags: &mut Vec<bool>,
    rows: &[LooseRow],
    sides: &[QueueSide<P, ()>],
    base: TxNo,
)
    requires rows { AreRows base rows.now (length sides.now) }
    requires rings { AreRings P.state sides.now }
    requires room { length rows.now ≤ vec_capacity flags.old }
    ensures flags { (starts : List ℕ) (h : List Record)
        → AreNumbered base h
        → rows.now ≡ reverse (loose_rows base starts h)
        → (length flags.new.items ≡ length h)
        × ((n : ℕ)
        → base < n
        → n ≤ base + length h
        → flag_of base flags.new.items n ≡ closure (is_done starts (ports_in P.state sides.now)) base h n) }
    ensures room { vec_capacity flags.old ≤ vec_capacity flags.new }
{
    flags.clear();
    for row in rows {
        let flag = row_flag(row, sides, flags, base);
        flags.push_reserved(flag);
    }
}

impl<P: Port> Parts<P> {
    /// Drains a queue, and looks again at what is settled.
    pub fn drain(&mut self, queue: QueueNo) -> Result<TxNo, Cause>
        requires queue { queue < length self.old.sides.items }
        requires journal { ∥ ((s : State) × (h : List Record)
            × IsJournal s h (parts_state P.state P.faults self.old)) ∥₁ }
        ensures { IsDrainOf (parts_state P.state P.faults self.old) queue result
            (parts_state P.state P.faults self.new) }
    {
        let base = self.root.base();
        let answer = self.sides[queue.0 as usize].drain();
        refresh(&mut self.flags, &self.rows, &self.sides, base);
        answer
    }

    /// Whether a number is settled.
    pub fn is_settled(&self, number: TxNo) -> bool
        requires { ∥ ((s : State) × (h : List Record)
            × IsJournal s h (parts_state P.state P.faults self.now)) ∥₁ }
        ensures { (s : State) (h : List Record)
            → IsJournal s h (parts_state P.state P.faults self.now)
            → result ≡ settled (state_over s h [] (parts_state P.state P.faults self.now)) number }
    {
        let base = self.root.base();
        if number.0 <= base.0 {
            return true;
        }
        let at = number.0 - base.0 - 1;
        match self.flags.get(at as usize) {
            Some(flag) => *flag,
            None => false,
        }
    }
}
