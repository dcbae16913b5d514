// The pages that a session gives back once its group has a number.
ghost use Rattle.std.specs.Prelude.{◌≡◌, ℕ, []};
ghost use Rattle.mq_blocks.specs.Descriptor.{AreRising};
ghost use Rattle.mq_journal.specs.Machine.{journal};
ghost use Rattle.mq_turns.specs.AtDesk.{AtDesk, view, start_of};
ghost use Rattle.mq_sessions.specs.Drawn.{blocks_in, tx_by};
ghost use Rattle.mq_sessions.specs.Leaving.{AreOnCells, cells_after};
ghost use Rattle.mq_sessions.specs.Pages.{HoldsPages, blocks_of, giving_pages};

use crate::drawn::page_after;
use mq_blocks::{BlockNo, TxNo};
use mq_drive::Port;
use mq_journal::{Groups, JournalMachine};
use mq_pages::{Held, Write};
use mq_revoke::Placement;
use mq_turns::{Chair, Desk, Item, Turn};

/// Applies the group with this number to each page that is held, and gives all of them back, the greatest
/// block first. The contents that were written are moved into their pages. What a page becomes does not
/// depend on the queue, so the transaction is named with queue 0. It takes no memory.
pub(crate) fn give_drawn_pages<P: Port + Drop, G: Groups>(
    desk: &Desk<JournalMachine<P, G>>,
    chair: &mut Chair<JournalMachine<P, G>>,
    held: &mut Held,
    number: TxNo,
    plan: &Placement,
    writes: &mut Vec<Write>,
    frees: &[BlockNo],
)
    requires at { AtDesk desk.now chair.old }
    requires pages { HoldsPages (journal P.state P.faults G.group) (start_of desk.now)
        (cells_after (tx_by number 0 plan.now writes.old.items frees.now) held.old.cells)
        (view chair.old) }
    requires logged { (high : ℕ) × AreRising 0 high plan.now.logged }
    requires direct { (high : ℕ) × AreRising 0 high plan.now.direct }
    requires frees { (high : ℕ) × AreRising 0 high frees.now }
    requires writes { (high : ℕ) × AreRising 0 high (blocks_in writes.old.items) }
    requires written { AreOnCells held.old.cells writes.old.items }
    ensures at { AtDesk desk.now chair.new }
    ensures gave { view chair.new ≡ giving_pages (blocks_of held.old.cells) (view chair.old) }
    ensures cells { held.new.cells ≡ [] }
    ensures room { held.new.room ≡ held.old.room }
{
    while let Some((block, cell)) = held.pop() {
        let cell = page_after(block, cell, number, plan, writes, frees);
        desk.give_back(chair, Turn::Page(block), Item::Page(cell));
    }
}
