// The pages that a session takes, and gives back.
ghost use Rattle.std.specs.Prelude.{◌≡◌, ◌+◌, ◌<◌, ◌≤◌, [], length};
ghost use Rattle.std.specs.List.{All, AllPairs};
ghost use Rattle.mq_turns.specs.AtDesk.{AtDesk, view, start_of};
ghost use Rattle.mq_turns.specs.Lists.{Each};
ghost use Rattle.mq_sessions.specs.Pages.{AddsCells, HoldsPages, TakesPages, blocks_of, giving_pages};

use mq_blocks::BlockNo;
use mq_pages::{Held, PageCell};
use mq_turns::{Chair, Desk, Item, Machine, Turn};
use std::sync::Wait;

/// Waits for the pages of these blocks, one after another, and takes their cells into what is held. The
/// blocks rise, and each is above all that the chair holds. It takes no memory.
pub(crate) fn take_pages<M: Machine<Page = PageCell>, R: Wait>(
    rt: &R,
    desk: &Desk<M>,
    chair: &mut Chair<M>,
    held: &mut Held,
    blocks: &[BlockNo],
)
    requires at { AtDesk desk.now chair.old }
    requires pages { HoldsPages M.meaning (start_of desk.now) held.old.cells (view chair.old) }
    requires rise { AllPairs (λ a b. a < b) blocks.now }
    requires homes { All (λ b. b < length (start_of desk.now).pages) blocks.now }
    requires above { All (λ b. Each (λ h. h.0 < b) (view chair.old).held) blocks.now }
    requires room { length held.old.cells + length blocks.now ≤ held.old.room }
    ensures at { AtDesk desk.now chair.new }
    ensures took { TakesPages M.meaning blocks.now (view chair.old) (view chair.new) }
    ensures pages { HoldsPages M.meaning (start_of desk.now) held.new.cells (view chair.new) }
    ensures cells { AddsCells blocks.now held.old.cells held.new.cells }
    ensures room { held.new.room ≡ held.old.room }
{
    for block in blocks {
        let Item::Page(cell) = desk.take(rt, chair, Turn::Page(*block)) else {
            unreachable!()
        };
        held.push(*block, cell);
    }
}

/// Gives back all pages that are held, the greatest block first. What else the chair holds stays with it.
pub(crate) fn give_back_pages<M: Machine<Page = PageCell>>(
    desk: &Desk<M>,
    chair: &mut Chair<M>,
    held: &mut Held,
)
    requires at { AtDesk desk.now chair.old }
    requires pages { HoldsPages M.meaning (start_of desk.now) held.old.cells (view chair.old) }
    ensures at { AtDesk desk.now chair.new }
    ensures gave { view chair.new ≡ giving_pages (blocks_of held.old.cells) (view chair.old) }
    ensures cells { held.new.cells ≡ [] }
    ensures room { held.new.room ≡ held.old.room }
{
    M::obeys();
    while let Some((block, cell)) = held.pop() {
        desk.give_back(chair, Turn::Page(block), Item::Page(cell));
    }
}
