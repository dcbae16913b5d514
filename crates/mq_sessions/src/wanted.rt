// The blocks whose pages a call asks for.
ghost use Rattle.std.specs.Prelude.{◌≡◌, ◌<◌, ◌≤◌, OnOk, OnErr, IsTrue, length};
ghost use Rattle.std.specs.List.{All, AllPairs};
ghost use Rattle.mq_turns.specs.AtDesk.{AtDesk, view, start_of};
ghost use Rattle.mq_sessions.specs.Wanted.{AreTogether, AreWanted, HoldsWanted, IsSameSession};

use crate::pages::{give_back_pages, take_pages};
use mq_blocks::{BlockNo, OutOfMemory};
use mq_pages::{Held, PageCell};
use mq_turns::{Chair, Desk, Machine};
use std::sync::Wait;

// Adds blocks to those that are wanted.
fn add(wanted: &mut Vec<BlockNo>, blocks: &[BlockNo]) -> Result<(), OutOfMemory>
    ensures ok { OnOk result (AreTogether wanted.old.items blocks.now wanted.new.items) }
    ensures err { OnErr result (wanted.new.items ≡ wanted.old.items) }
{
    wanted.extend_from_slice(blocks)?;
    wanted.sort_unstable();
    wanted.dedup();
    Ok(())
}

// Each block is above all that are wanted, where both lists rise.
fn are_above(blocks: &[BlockNo], wanted: &[BlockNo]) -> bool
    requires blocks { AllPairs (λ a b. a < b) blocks.now }
    requires wanted { AllPairs (λ a b. a < b) wanted.now }
    ensures { IsTrue result → All (λ b. All (λ a. a < b) wanted.now) blocks.now }
{
    let Some(last) = wanted.last() else {
        return true;
    };
    let Some(first) = blocks.first() else {
        return true;
    };
    last.0 < first.0
}

/// Takes the pages of further blocks, for a chair that holds just the pages of the wanted ones. If one of
/// the blocks is below the last that is wanted, all pages are given back, and those of the larger set
/// taken, so that the chair takes its turns in rising order. On out of memory everything is as it was.
pub(crate) fn take_more<M: Machine<Page = PageCell>, R: Wait>(
    rt: &R,
    desk: &Desk<M>,
    chair: &mut Chair<M>,
    wanted: &mut Vec<BlockNo>,
    held: &mut Held,
    blocks: &[BlockNo],
) -> Result<(), OutOfMemory>
    requires at { AtDesk desk.now chair.old }
    requires wanted { AreWanted (length (start_of desk.now).pages) wanted.old.items }
    requires holds { HoldsWanted M.meaning (start_of desk.now) wanted.old.items held.old.cells
        (view chair.old) }
    requires blocks { AreWanted (length (start_of desk.now).pages) blocks.now }
    requires room { length (start_of desk.now).pages ≤ held.old.room }
    ensures at { AtDesk desk.now chair.new }
    ensures wanted { AreWanted (length (start_of desk.now).pages) wanted.new.items }
    ensures holds { HoldsWanted M.meaning (start_of desk.now) wanted.new.items held.new.cells
        (view chair.new) }
    ensures more { OnOk result (AreTogether wanted.old.items blocks.now wanted.new.items) }
    ensures err { OnErr result (wanted.new.items ≡ wanted.old.items) }
    ensures same { IsSameSession (view chair.old) (view chair.new) }
    ensures room { held.new.room ≡ held.old.room }
{
    let above = are_above(blocks, wanted);
    add(wanted, blocks)?;
    if above {
        take_pages(rt, desk, chair, held, blocks);
        return Ok(());
    }
    give_back_pages(desk, chair, held);
    take_pages(rt, desk, chair, held, wanted);
    Ok(())
}
