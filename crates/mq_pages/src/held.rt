// The pages that a session holds.
ghost use Rattle.std.specs.Prelude.{◌≡◌, ◌≢◌, ◌≤◌, ◌<◌, ◌↔◌, ◌++◌, ◌∷◌, ◌==◌, [], length, IfOk, IsNone, MatchOption};
ghost use Rattle.std.specs.List.{All, Contains};
ghost use Rattle.std.specs.Option.{option_copied, option_to_list};
ghost use Rattle.mq_pages.specs.Held.{IsRising, IsAboveLast, cell_of};

use crate::PageCell;
use mq_blocks::{BlockNo, OutOfMemory};
use std::alloc::Global;
use std::marker::Model;

/// Cells that were taken out of the shared table, in rising order of blocks. Room for them is
/// allocated once.
#[derive(Drop)]
pub struct Held {
    cells: Vec<(BlockNo, PageCell)>,
    room: u32,
}

impl Model for Held {
    ghost use Rattle.std.specs.Prelude.{◌≤◌, length, vec_capacity};
    ghost use Rattle.mq_pages.specs.Held.{HeldCells, IsHeld};

    ghost Value = { HeldCells };

    ghost view = { λ h. record { cells = h.cells.items; room = h.room } };

    ghost invariant = { λ h. IsHeld h.cells.items h.room (vec_capacity h.cells) };
}

impl Held {
    /// An empty list, with room for `room` cells.
    pub fn new(alloc: Global, room: u32) -> Result<Held, OutOfMemory>
        ensures empty { IfOk result (λ h. h.cells ≡ []) }
        ensures room { IfOk result (λ h. h.room ≡ room) }
    {
        Ok(Held {
            cells: Vec::with_capacity(alloc, room as usize)?,
            room,
        })
    }

    /// Adds the cell of a block above all that are held.
    pub fn push(&mut self, b: BlockNo, cell: PageCell)
        requires room { length self.old.cells < self.old.room }
        requires above { IsAboveLast b self.old.cells }
        ensures cells { self.new.cells ≡ self.old.cells ++ (b, cell) ∷ [] }
        ensures room { self.new.room ≡ self.old.room }
    {
        match self.cells.push((b, cell)) {
            Ok(()) => {}
            Err(_) => unreachable!(),
        }
    }

    /// The cell of a block, or `None` where the block isn't held.
    pub fn get(&self, b: BlockNo) -> Option<&PageCell>
        ensures value { option_copied result ≡ cell_of self.now.cells b }
        ensures held { MatchOption result (All (λ pair. pair.0 ≢ b) self.now.cells)
            (λ cell. Contains self.now.cells (b, cell.now)) }
    {
        match self.cells.binary_search_by_key(&b, |(block, _)| *block) {
            Ok(at) => Some(&self.cells[at].1),
            Err(_) => None,
        }
    }

    /// Takes out the last cell, which is that of the greatest block.
    pub fn pop(&mut self) -> Option<(BlockNo, PageCell)>
        ensures last { self.old.cells ≡ self.new.cells ++ option_to_list result }
        ensures none { IsNone result ↔ (self.old.cells ≡ []) }
        ensures room { self.new.room ≡ self.old.room }
    {
        self.cells.pop()
    }

    /// The number of cells that are held.
    pub fn len(&self) -> usize
        ensures is { result ≡ length self.now.cells }
        ensures fits { length self.now.cells ≤ self.now.room }
        ensures rising { IsRising self.now.cells }
    {
        self.cells.len()
    }

    pub fn is_empty(&self) -> bool
        ensures { result ≡ (length self.now.cells == 0) }
    {
        self.cells.is_empty()
    }

    /// The greatest number of cells that can be held at once.
    pub fn room(&self) -> u32
        ensures { result ≡ self.now.room }
    {
        self.room
    }
}
