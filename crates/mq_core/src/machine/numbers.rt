// Events on numbers: a transaction is drawn, marks move up, numbers are acknowledged.
ghost use Rattle.std.specs.Prelude.{◌≡◌, ◌<◌, ◌≤◌, ◌↔◌, ◌+◌, ◌&&◌, length, slice_index_or, IsTrue, filter, not, nat_eq, nat_lt};
ghost use Rattle.mq_blocks.specs.Geometry.{homes_of};
ghost use Rattle.mq_ledger.specs.History.{last};
ghost use Rattle.mq_ledger.specs.Plain.{plain};
ghost use Rattle.mq_ledger.specs.State.{front_of};
ghost use Rattle.mq_core.specs.Answers.{Answers};
ghost use Rattle.mq_blocks.specs.Journal.{is_among};
ghost use Rattle.mq_core.specs.Machine.{IsAllowed, happens, Draw, Clear, Acknowledge};

use super::Core;
use super::parts::Parts;
use crate::CoreRefusal;
use mq_blocks::{BlockNo, QueueNo, TxNo};
use mq_ledger::{Ledger, Tx};

/// Whether this number changed a block last; false for a block that is no home block.
pub fn is_last_change(ledger: &Ledger, block: BlockNo, number: TxNo) -> bool
    ensures { result ≡ (nat_lt block (homes_of ledger.now.geometry) && nat_eq
        (last ledger.now.base ledger.now.history block) number) }
{
    block.0 < ledger.geometry().homes() && ledger.last_change(block).0 == number.0
}

/// Whether the mark of a queue is at or below a number.
pub fn is_marked(marks: &[u64], queue: QueueNo, number: TxNo) -> bool
    requires { queue < length marks.now }
    ensures { IsTrue result ↔ (slice_index_or marks.now queue 0 ≤ number) }
{
    marks[queue.0 as usize] <= number.0
}

/// Drops the blocks that this number changed last.
pub fn drop_changed(ledger: &Ledger, blocks: &mut Vec<BlockNo>, number: TxNo)
    ensures { blocks.new.items ≡ filter
        (λ x. not (nat_lt x (homes_of ledger.now.geometry) && nat_eq
        (last ledger.now.base ledger.now.history x) number)) blocks.old.items }
{
    blocks.retain(|block| !is_last_change(ledger, *block, number));
}

impl Core {
    /// Whether a transaction may be drawn.
    fn may_draw(&self, tx: &Tx) -> bool
        ensures { IsTrue result ↔ IsAllowed plain (Draw tx.now) self.now }
    {
        if !self.ledger.may_draw(tx, TxNo(self.root.base())) {
            return false;
        }
        let now = Parts {
            ledger: &self.ledger,
            ports: &self.ports,
            root: &self.root,
        };
        if !now.has_room(tx) {
            return false;
        }
        is_marked(&self.marks, tx.queue, tx.number)
    }

    /// A transaction takes the next number.
    pub fn draw(&mut self, tx: Tx) -> Result<(), CoreRefusal>
        ensures { Answers (IsAllowed plain (Draw tx) self.old)
            (happens plain (Draw tx) self.old) self.old self.new result }
    {
        if !self.may_draw(&tx) {
            return Err(CoreRefusal::NotAllowed { index: 0 });
        }
        let number = tx.number;
        self.ledger.push(tx)?;
        drop_changed(&self.ledger, &mut self.writing, number);
        Ok(())
    }

    /// The queue's mark: each of its numbers that isn't done is at or above it.
    pub fn clear(&mut self, queue: QueueNo, low: u64) -> Result<(), CoreRefusal>
        ensures { Answers (IsAllowed plain (Clear queue low) self.old)
            (happens plain (Clear queue low) self.old) self.old self.new result }
    {
        let at = queue.0 as usize;
        if at >= self.ports.len() {
            return Err(CoreRefusal::NotAllowed { index: 0 });
        }
        let head = self.ports[at].head();
        if !self.ledger.is_clear(queue, head, low) {
            return Err(CoreRefusal::NotAllowed { index: 0 });
        }
        self.marks[at] = low;
        Ok(())
    }

    /// All numbers up to this one are done, and this is acknowledged to the caller.
    pub fn acknowledge(&mut self, number: TxNo) -> Result<(), CoreRefusal>
        ensures { Answers (IsAllowed plain (Acknowledge number) self.old)
            (happens plain (Acknowledge number) self.old) self.old self.new result }
    {
        if number.0 > self.ledger.front().0 {
            return Err(CoreRefusal::NotAllowed { index: 0 });
        }
        self.acknowledged.push(number)?;
        Ok(())
    }
}

// Whether a number is one of these.
fn holds_number(numbers: &[TxNo], number: TxNo) -> bool
    ensures { result ≡ is_among number numbers.now }
{
    for other in numbers {
        if other.0 == number.0 {
            return true;
        }
    }
    false
}

impl Core {
    /// The number that was drawn last, or the base at the start where none was.
    pub fn last(&self) -> TxNo
        ensures { result ≡ self.now.base + length self.now.history }
    {
        self.ledger.last()
    }

    /// The front: the greatest number such that all up to it are done.
    pub fn done(&self) -> TxNo
        ensures { result ≡ front_of self.now }
    {
        self.ledger.front()
    }

    /// Whether a number was acknowledged.
    pub fn acknowledged(&self, number: TxNo) -> bool
        ensures { result ≡ is_among number self.now.acknowledged }
    {
        holds_number(&self.acknowledged, number)
    }
}
