// The calls on marks and base.
ghost use Rattle.std.specs.Prelude.{◌≡◌, ℕ, suc, ◌+◌, ◌-◌, ◌<◌, ◌≤◌, length};
ghost use Rattle.mq_turns.specs.Meaning.{newest};
ghost use Rattle.mq_turns.specs.Lists.{times};
ghost use Rattle.mq_turns.specs.Marks.{DoneTo};
ghost use Rattle.mq_turns.specs.Words.{after_clear, after_base, after_raise, MayClear, MayRaise};
ghost use Rattle.mq_turns.specs.Swept.{AfterFront, AfterMarks};
ghost use Rattle.mq_turns.specs.Desk.{IsTurn, slot_of, Sees};
ghost use Rattle.mq_turns.specs.AtDesk.{AtDesk, view, start_of};
ghost use Rattle.mq_turns.specs.declared.rule.Known.{Known};
ghost use Rattle.mq_turns.specs.declared.turn.Turn.TheVariants.{Side, Root};

use crate::desk::{Chair, Desk};
use crate::machine::Machine;
use crate::{steps, words};
use mq_blocks::{QueueNo, TxNo};
use std::marker::Brand;

impl<M: Machine> Desk<M> {
    /// Stores the mark of a queue whose side the chair holds. From then on all chairs know that the
    /// queue's numbers below it are done, and the side must show this by the time that it is given
    /// back. `u64::MAX` says that none of the queue's numbers is undone.
    pub fn clear(&self, chair: &mut Chair<M>, queue: QueueNo, low: u64)
        requires at { AtDesk self.now chair.old }
        requires side { IsTurn (start_of self.now) (Side queue)
            × (0 < times (slot_of (start_of self.now) (Side queue)) (view chair.old).held) }
        requires low { 1 ≤ low }
        requires may { MayClear M.meaning queue low (view chair.old) }
        ensures at { AtDesk self.now chair.new }
        ensures cleared { (K : Known M.Page M.Side M.Root M.Entry)
            × (view chair.new ≡ after_clear queue low K (view chair.old))
            × Sees M.meaning (view chair.old) K }
    {
        let word = self.table.slot_count() + 1 + queue.0 as usize;
        words::clear(&self.table.shared, &mut chair.place, word, low);
    }

    // Reads the counter, then each mark.
    fn read_marks(&self, chair: &mut Chair<M>) -> TxNo
        requires at { AtDesk self.now chair.old }
        ensures at { AtDesk self.now chair.new }
        ensures marks { AfterMarks M.meaning (start_of self.now) result (view chair.old) (view chair.new) }
    {
        let counter = self.table.slot_count();
        let mut low = steps::count(&self.table.shared, &mut chair.place, counter);
        for queue in 0..self.sides as usize {
            let mark = words::peek(&self.table.shared, &mut chair.place, counter + 1 + queue);
            low = low.min(mark.saturating_sub(1));
        }
        TxNo(low)
    }

    /// Reads the counter, then each mark, with one load for each of them. The chair keeps the result by
    /// one more load, which only proofs need.
    pub fn front(&self, chair: &mut Chair<M>) -> TxNo
        requires at { AtDesk self.now chair.old }
        ensures at { AtDesk self.now chair.new }
        ensures front { AfterFront M.meaning (start_of self.now) result (view chair.old) (view chair.new) }
    {
        let front = self.read_marks(chair);
        let counter = self.table.slot_count();
        words::note_front::<M, Brand>(&self.table.shared, &mut chair.place, counter, front);
        front
    }

    /// Reads the base, with one load. The chair keeps the result.
    pub fn base(&self, chair: &mut Chair<M>) -> TxNo
        requires at { AtDesk self.now chair.old }
        ensures at { AtDesk self.now chair.new }
        ensures based { view chair.new ≡ after_base result (view chair.old) }
        ensures above { (view chair.old).reading.base ≤ result }
        ensures was { (K : Known M.Page M.Side M.Root M.Entry)
            × (K.word ≡ result)
            × Sees M.meaning (view chair.old) K }
    {
        let word = self.table.slot_count() + 1 + self.sides as usize;
        TxNo(words::base(&self.table.shared, &mut chair.place, word))
    }

    /// Stores the base. The chair holds the root, whose own base was raised before.
    pub fn raise(&self, chair: &mut Chair<M>, base: TxNo)
        requires at { AtDesk self.now chair.old }
        requires root { 0 < times (slot_of (start_of self.now) Root) (view chair.old).held }
        requires may { MayRaise M.meaning base (view chair.old) }
        ensures at { AtDesk self.now chair.new }
        ensures raised { (K : Known M.Page M.Side M.Root M.Entry)
            × (view chair.new ≡ after_raise base K (view chair.old))
            × Sees M.meaning (view chair.old) K }
    {
        let word = self.table.slot_count() + 1 + self.sides as usize;
        words::raise(&self.table.shared, &mut chair.place, word, base.0);
    }
}
