// The calls on a desk that many threads share.
ghost use Rattle.std.specs.Prelude.{◌≡◌, ℕ, suc, ◌+◌, ◌^◌, ◌<◌, ◌≤◌, [], ◌∷◌, Option, Some, None, IfSome, length};
ghost use Rattle.std.specs.Option.{option_map};
ghost use Rattle.mq_turns.specs.Meaning.{newest};
ghost use Rattle.mq_turns.specs.Lists.{Each, times};
ghost use Rattle.mq_turns.specs.declared.rule.Known.{Known};
ghost use Rattle.mq_turns.specs.declared.turn.Turn.TheVariants.{Side};
ghost use Rattle.mq_turns.specs.Desk.{IsTurn, slot_of, allotment, Covers, MayRead, Follows, Below, IsInOrder, Sees, Stands, after_draw, after_look};
ghost use Rattle.mq_turns.specs.Chairs.{holding, giving};
ghost use Rattle.mq_turns.specs.AtDesk.{AtDesk, view, start_of, chairs_of};

use crate::desk::{Chair, Desk};
use crate::machine::Machine;
use crate::plays::Note;
use crate::steps;
use crate::turn::{Item, Turn};
use mq_blocks::{QueueNo, TxNo};
use std::sync::Wait;

impl<M: Machine> Desk<M> {
    fn slot(&self, turn: Turn) -> usize
        requires { IsTurn (start_of self.now) turn }
        ensures { result ≡ slot_of (start_of self.now) turn }
    {
        match turn {
            Turn::Page(block) => block.0 as usize,
            Turn::Side(queue) => self.pages as usize + queue.0 as usize,
            Turn::Root => self.pages as usize + self.sides as usize,
        }
    }

    /// Waits until the turn is free, and takes it with its value. A chair takes its turns in rising
    /// order. This is the only call that waits.
    pub fn take<R: Wait>(&self, rt: &R, chair: &mut Chair<M>, turn: Turn) -> Item<M>
        requires at { AtDesk self.now chair.old }
        requires turn { IsTurn (start_of self.now) turn }
        requires above { Each (λ h. h.0 < slot_of (start_of self.now) turn) (view chair.old).held }
        ensures at { AtDesk self.now chair.new }
        ensures took { (K : Known M.Page M.Side M.Root M.Entry)
            × (view chair.new ≡ holding (slot_of (start_of self.now) turn) K (view chair.old))
            × Sees M.meaning (view chair.old) K
            × Stands M.meaning turn K result }
    {
        steps::take(rt, &self.table.shared, &mut chair.place, self.slot(turn))
    }

    /// Gives a turn back, with a value that agrees with what the chair knows of it.
    pub fn give_back(&self, chair: &mut Chair<M>, turn: Turn, item: Item<M>)
        requires at { AtDesk self.now chair.old }
        requires turn { IsTurn (start_of self.now) turn }
        requires holds { 0 < times (slot_of (start_of self.now) turn) (view chair.old).held }
        requires stands { (K : Known M.Page M.Side M.Root M.Entry)
            → Sees M.meaning (view chair.old) K
            → Stands M.meaning turn K item }
        ensures at { AtDesk self.now chair.new }
        ensures gave { view chair.new ≡ giving (slot_of (start_of self.now) turn) (view chair.old) }
    {
        let slot = self.slot(turn);
        steps::give_back(&self.table.shared, &mut chair.place, slot, item);
    }

    /// The greatest number drawn so far. An entry that is given as `read` is not drawn: its replies
    /// are the machine's on the map at the returned number, and the chair keeps it.
    pub fn look(&self, chair: &mut Chair<M>, read: Option<&M::Entry>) -> TxNo
        requires at { AtDesk self.now chair.old }
        requires read { IfSome read (λ e. MayRead M.meaning e.now (view chair.old)
            × Follows M.meaning e.now (view chair.old)) }
        ensures at { AtDesk self.now chair.new }
        ensures looked { (K : Known M.Page M.Side M.Root M.Entry)
            × (view chair.new ≡ after_look (option_map (λ e. e.now) read.entry) K (view chair.old))
            × (newest K ≡ result)
            × Sees M.meaning (view chair.old) K }
        ensures below { Below result (view chair.old) }
        ensures order { IsInOrder M.meaning (view chair.new) }
    {
        TxNo(steps::look(
            &self.table.shared,
            &mut chair.place,
            self.table.slot_count(),
            read,
        ))
    }

    /// Draws the next number for an entry of the queue, in one step. The chair holds the queue's side
    /// and all that the entry's group looked at or changes.
    pub fn draw(&self, chair: &mut Chair<M>, queue: QueueNo, entry: &M::Entry) -> TxNo
        requires at { AtDesk self.now chair.old }
        requires queue { (M.meaning).queue entry.now ≡ queue }
        requires side { IsTurn (start_of self.now) (Side queue)
            × (0 < times (slot_of (start_of self.now) (Side queue)) (view chair.old).held) }
        requires may { Covers M.meaning entry.now (view chair.old) }
        requires follows { Follows M.meaning entry.now (view chair.old) }
        requires room { length (view chair.old).drawn < allotment (chairs_of self.now) }
        ensures at { AtDesk self.now chair.new }
        ensures drew { (K : Known M.Page M.Side M.Root M.Entry)
            × (view chair.new ≡ after_draw M.meaning entry.now K (view chair.old))
            × (result ≡ suc (newest K))
            × Sees M.meaning (view chair.old) K }
        ensures limit { result ≤ 2 ^ 63 }
        ensures above { ((view chair.old).seen < result) × Each (λ d. d.0 < result) (view chair.old).drawn }
        ensures order { IsInOrder M.meaning (view chair.new) }
    {
        let _ = queue;
        let last = steps::draw(
            &self.table.shared,
            &mut chair.place,
            self.table.slot_count(),
            entry,
        );
        TxNo(last + 1)
    }

    /// From now on `to` has seen every number that `from` saw or drew.
    pub fn tell(&self, from: &mut Chair<M>, to: &mut Chair<M>)
        requires { AtDesk self.now from.old × AtDesk self.now to.old }
        ensures at { AtDesk self.now from.new × AtDesk self.now to.new }
        ensures from { view from.new ≡ view from.old }
        ensures to { (n : ℕ)
            × (view to.new ≡ record (view to.old) { seen = n })
            × Below n (view from.old)
            × Below n (view to.old) }
    {
        let note = self.table.shared.split_seat::<Note>(&mut from.place);
        self.table.shared.join_seat::<Note>(&mut to.place, note);
        steps::count(&self.table.shared, &mut to.place, self.table.slot_count());
    }
}
