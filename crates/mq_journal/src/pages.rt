// The pages are visited one after another.
ghost use Rattle.std.specs.Prelude.{◌≡◌, ◌<◌, ◌≤◌, ℕ, [], length, IfErr, IfOk, OnOk, None, Some};
ghost use Rattle.mq_blocks.specs.Geometry.{homes_of, queues_of};
ghost use Rattle.mq_journal.specs.Numbers.{values};
ghost use Rattle.mq_desk_laws.specs.Rule.{shape_of};
ghost use Rattle.mq_turns.specs.AtDesk.{AtDesk, view, start_of};
ghost use Rattle.mq_journal.specs.Pages.{AreNoted, HoldsOnlyPage, IsAtHome, IsCopyOf, IsNoted};
ghost use Rattle.mq_journal.specs.Steps.{IsRefusedBy, MovesOn, RefusesCheckpoint};

use crate::catching_up::catch_up;
use crate::homes::write_home;
use crate::machine::{Groups, JournalMachine};
use crate::refusal::CheckpointRefusal;
use mq_blocks::{Block, BlockNo, Geometry, OutOfMemory, TxNo};
use mq_drive::Port;
use mq_pages::PageCell;
use mq_queue_side::Cause;
use mq_turns::{Chair, Desk, Item, Turn};
use std::alloc::Global;
use std::sync::Wait;

// A copy of the page's content, where the page waits for a home write: the block is in the map, and its
// last change logged it and is above the last number whose content came home.
fn copy_waiting(alloc: Global, cell: &PageCell) -> Result<Option<Block>, OutOfMemory>
    ensures { IfOk result (λ copy. IsCopyOf cell.now copy) }
{
    if cell.last_logged != cell.version {
        return Ok(None);
    }
    if cell.home_version >= cell.version {
        return Ok(None);
    }
    match &cell.content {
        Some(content) => Ok(Some(content.copy(alloc)?)),
        None => Ok(None),
    }
}

// Makes sure that the last change of a page in hand is done. Where that isn't known yet, the sides of all
// queues are drained.
fn settle_page<R: Wait, P: Port + Drop, G: Groups>(
    rt: &R,
    desk: &Desk<JournalMachine<P, G>>,
    chair: &mut Chair<JournalMachine<P, G>>,
    geometry: Geometry,
    block: BlockNo,
    cell: &PageCell,
    done: TxNo,
) -> Result<TxNo, Cause>
    requires at { AtDesk desk.now chair.old }
    requires sides { length (start_of desk.now).sides ≡ queues_of geometry }
    requires page { HoldsOnlyPage P.state P.faults G.group (start_of desk.now) block cell.now
        (view chair.old) }
    requires done { done ≤ (view chair.old).reading.done }
    ensures at { AtDesk desk.now chair.new }
    ensures page { HoldsOnlyPage P.state P.faults G.group (start_of desk.now) block cell.now
        (view chair.new) }
    ensures settled { IfOk result (λ n. (cell.now.version ≤ n) × (n ≤ (view chair.new).reading.done)) }
    ensures moves { OnOk result (MovesOn [] [] (view chair.old) (view chair.new)) }
    ensures refused { IfErr result (λ c. IsRefusedBy P.state P.faults G.group [] c
        (view chair.old) (view chair.new)) }
{
    if cell.version <= done {
        return Ok(done);
    }
    catch_up(rt, desk, chair, geometry.queues())
}

// Writes a page in hand home, where it waits for it.
fn write_waiting<R: Wait, P: Port + Drop, G: Groups>(
    rt: &R,
    desk: &Desk<JournalMachine<P, G>>,
    chair: &mut Chair<JournalMachine<P, G>>,
    alloc: Global,
    geometry: Geometry,
    block: BlockNo,
    cell: &mut PageCell,
) -> Result<(), CheckpointRefusal>
    requires at { AtDesk desk.now chair.old }
    requires shape { geometry ≡ shape_of (values P.state P.faults G.group) G.group (start_of desk.now) }
    requires sides { length (start_of desk.now).sides ≡ queues_of geometry }
    requires home { block < homes_of geometry }
    requires page { HoldsOnlyPage P.state P.faults G.group (start_of desk.now) block cell.old
        (view chair.old) }
    requires done { cell.old.version ≤ (view chair.old).reading.done }
    ensures at { AtDesk desk.now chair.new }
    ensures page { HoldsOnlyPage P.state P.faults G.group (start_of desk.now) block cell.new
        (view chair.new) }
    ensures version { cell.new.version ≡ cell.old.version }
    ensures brought { OnOk result (IsAtHome cell.new) }
    ensures moves { OnOk result (MovesOn [] [] (view chair.old) (view chair.new)) }
    ensures refused { IfErr result (λ r. RefusesCheckpoint P.state P.faults G.group [] r
        (view chair.old) (view chair.new)) }
{
    let Some(copy) = copy_waiting(alloc, cell)? else {
        return Ok(());
    };
    write_home(rt, desk, chair, geometry, block, cell, copy)?;
    cell.home_version = cell.version;
    Ok(())
}

// Sees to a page in hand: its last change is done, and no base up to it needs a home write of it.
fn bring_held<R: Wait, P: Port + Drop, G: Groups>(
    rt: &R,
    desk: &Desk<JournalMachine<P, G>>,
    chair: &mut Chair<JournalMachine<P, G>>,
    alloc: Global,
    geometry: Geometry,
    block: BlockNo,
    cell: &mut PageCell,
    done: TxNo,
) -> Result<TxNo, CheckpointRefusal>
    requires at { AtDesk desk.now chair.old }
    requires shape { geometry ≡ shape_of (values P.state P.faults G.group) G.group (start_of desk.now) }
    requires sides { length (start_of desk.now).sides ≡ queues_of geometry }
    requires home { block < homes_of geometry }
    requires page { HoldsOnlyPage P.state P.faults G.group (start_of desk.now) block cell.old
        (view chair.old) }
    requires done { done ≤ (view chair.old).reading.done }
    ensures at { AtDesk desk.now chair.new }
    ensures page { HoldsOnlyPage P.state P.faults G.group (start_of desk.now) block cell.new
        (view chair.new) }
    ensures settled { IfOk result (λ n. n ≤ (view chair.new).reading.done) }
    ensures changed { OnOk result (cell.new.version ≤ (view chair.new).reading.done) }
    ensures brought { OnOk result (IsAtHome cell.new) }
    ensures moves { OnOk result (MovesOn [] [] (view chair.old) (view chair.new)) }
    ensures refused { IfErr result (λ r. RefusesCheckpoint P.state P.faults G.group [] r
        (view chair.old) (view chair.new)) }
{
    let done = settle_page(rt, desk, chair, geometry, block, cell, done)?;
    write_waiting(rt, desk, chair, alloc, geometry, block, cell)?;
    Ok(done)
}

/// Takes the page of the block, makes sure that its last change is done, writes it home if it waits for
/// that, notes it and gives it back. All numbers up to `done` are known to be done before the call, and all
/// up to the returned one after it.
pub(crate) fn bring_page<R: Wait, P: Port + Drop, G: Groups>(
    rt: &R,
    desk: &Desk<JournalMachine<P, G>>,
    chair: &mut Chair<JournalMachine<P, G>>,
    alloc: Global,
    geometry: Geometry,
    block: BlockNo,
    done: TxNo,
) -> Result<TxNo, CheckpointRefusal>
    requires at { AtDesk desk.now chair.old }
    requires shape { geometry ≡ shape_of (values P.state P.faults G.group) G.group (start_of desk.now) }
    requires pages { length (start_of desk.now).pages ≡ homes_of geometry }
    requires sides { length (start_of desk.now).sides ≡ queues_of geometry }
    requires home { block < homes_of geometry }
    requires idle { (view chair.old).held ≡ [] }
    requires done { done ≤ (view chair.old).reading.done }
    ensures at { AtDesk desk.now chair.new }
    ensures idle { (view chair.new).held ≡ [] }
    ensures settled { IfOk result (λ n. n ≤ (view chair.new).reading.done) }
    ensures noted { OnOk result ((base : ℕ)
        → base ≤ (view chair.old).reading.done
        → IsNoted P.state P.faults G.group base block (view chair.new).reading.pages) }
    ensures moves { OnOk result (MovesOn [] [] (view chair.old) (view chair.new)) }
    ensures refused { IfErr result (λ r. RefusesCheckpoint P.state P.faults G.group [] r
        (view chair.old) (view chair.new)) }
{
    let Item::Page(mut cell) = desk.take(rt, chair, Turn::Page(block)) else {
        unreachable!()
    };
    match bring_held(rt, desk, chair, alloc, geometry, block, &mut cell, done) {
        Ok(done) => {
            desk.note_page(chair, block, &cell);
            desk.give_back(chair, Turn::Page(block), Item::Page(cell));
            Ok(done)
        }
        Err(refusal) => {
            desk.give_back(chair, Turn::Page(block), Item::Page(cell));
            Err(refusal)
        }
    }
}

/// Brings the pages of all home blocks, one after another. The base is known to be done.
pub(crate) fn bring_pages<R: Wait, P: Port + Drop, G: Groups>(
    rt: &R,
    desk: &Desk<JournalMachine<P, G>>,
    chair: &mut Chair<JournalMachine<P, G>>,
    alloc: Global,
    geometry: Geometry,
    base: TxNo,
) -> Result<(), CheckpointRefusal>
    requires at { AtDesk desk.now chair.old }
    requires shape { geometry ≡ shape_of (values P.state P.faults G.group) G.group (start_of desk.now) }
    requires pages { length (start_of desk.now).pages ≡ homes_of geometry }
    requires sides { length (start_of desk.now).sides ≡ queues_of geometry }
    requires idle { (view chair.old).held ≡ [] }
    requires done { base ≤ (view chair.old).reading.done }
    ensures at { AtDesk desk.now chair.new }
    ensures idle { (view chair.new).held ≡ [] }
    ensures noted { OnOk result (AreNoted P.state P.faults G.group base (homes_of geometry)
        (view chair.new).reading.pages) }
    ensures moves { OnOk result (MovesOn [] [] (view chair.old) (view chair.new)) }
    ensures refused { IfErr result (λ r. RefusesCheckpoint P.state P.faults G.group [] r
        (view chair.old) (view chair.new)) }
{
    let mut done = base;
    for block in 0..geometry.homes() {
        done = bring_page(rt, desk, chair, alloc, geometry, BlockNo(block), done)?;
    }
    Ok(())
}
