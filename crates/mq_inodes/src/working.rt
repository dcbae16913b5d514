// The pages as they are between two requests of a group.
ghost use Rattle.std.specs.Prelude.{◌≡◌, ◌≢◌, ℕ, IfErr, IfOk, OnOk, Some, None};
ghost use Rattle.mq_inodes.specs.Changes.{IsPut};
ghost use Rattle.mq_inodes.specs.Edits.{IsKindPut, IsLifted, IsSameView};
ghost use Rattle.mq_inodes.specs.MissingPages.{MissingPages};
ghost use Rattle.mq_inodes.specs.Pages.{IsHeld, held_pages, kinds_of, known, pages_of, view_of};

use crate::lack::{Missing, one};
use mq_blocks::{Block, BlockNo, Geometry, OutOfMemory};
use mq_pages::{Held, Kind};
use std::alloc::Global;
use std::collections::BTreeMap;

/// What is known of a home block.
#[derive(Clone, Copy)]
pub enum Page<'a> {
    Absent,
    /// It is not in the map.
    Free,
    Held(&'a Block),
}

/// The content of a block that was changed, and whether it is metadata. For a block of the metadata
/// region the kind isn't looked at.
#[derive(Drop)]
pub struct Change {
    pub kind: Kind,
    pub content: Block,
}

/// The pages of a view, and over them those that the requests before have changed.
#[derive(Drop)]
pub struct Working<'a> {
    pub geometry: Geometry,
    pub(crate) held: &'a Held,
    pub(crate) changed: BTreeMap<u32, Option<Change>>,
}

impl<'a> Working<'a> {
    /// The pages of a view, of which none is changed yet.
    #[tactic(auto, unfolding(crate::specs::Pages::pages_of, crate::specs::Pages::view_of, crate::specs::Pages::kinds_of))]
    pub fn new(alloc: Global, geometry: Geometry, held: &'a Held) -> Working<'a>
        ensures geometry { result.geometry ≡ geometry }
        ensures pages { (b : ℕ) → pages_of result b ≡ held_pages held.now.cells b }
        ensures view { (b : ℕ) → view_of result b ≡ held_pages held.now.cells b }
        ensures kinds { (b : ℕ) → kinds_of result b ≡ None }
    {
        Working {
            geometry,
            held,
            changed: BTreeMap::new(alloc),
        }
    }

    #[tactic(auto, unfolding(crate::specs::Pages::pages_of))]
    pub(crate) fn page(&self, b: BlockNo) -> Page<'_>
        ensures { known result ≡ pages_of self.now b }
    {
        if let Some(page) = self.changed.get(&b.0) {
            return match page {
                Some(change) => Page::Held(&change.content),
                None => Page::Free,
            };
        }
        match self.held.get(b) {
            Some(cell) => match &cell.content {
                Some(block) => Page::Held(block),
                None => Page::Free,
            },
            None => Page::Absent,
        }
    }

    /// The content of a block that is not free.
    pub(crate) fn content(&self, alloc: Global, b: BlockNo) -> Result<&Block, Missing>
        requires { pages_of self.now b ≢ Some None }
        ensures ok { IfOk result (λ block. pages_of self.now b ≡ Some (Some block.now)) }
        ensures lack { IfErr result (MissingPages (pages_of self.now) (λ x. x ≡ b)) }
    {
        match self.page(b) {
            Page::Held(block) => Ok(block),
            Page::Absent => Err(Missing::Need(one(alloc, b)?)),
            Page::Free => unreachable!(),
        }
    }

    /// Puts the content of a block.
    #[tactic(auto, unfolding(crate::specs::Pages::pages_of, crate::specs::Pages::view_of, crate::specs::Pages::kinds_of))]
    pub(crate) fn put(&mut self, b: BlockNo, kind: Kind, content: Block) -> Result<(), OutOfMemory>
        ensures view { OnOk result (IsSameView self.old self.new) }
        ensures page { OnOk result (IsPut (pages_of self.old) (pages_of self.new) b (Some content)) }
        ensures kind { OnOk result (IsKindPut self.old self.new b (Some kind)) }
    {
        self.changed.insert(b.0, Some(Change { kind, content }))?;
        Ok(())
    }

    /// Marks a block as free.
    #[tactic(auto, unfolding(crate::specs::Pages::pages_of, crate::specs::Pages::view_of, crate::specs::Pages::kinds_of))]
    pub(crate) fn put_free(&mut self, b: BlockNo) -> Result<(), OutOfMemory>
        ensures view { OnOk result (IsSameView self.old self.new) }
        ensures page { OnOk result (IsPut (pages_of self.old) (pages_of self.new) b None) }
        ensures kind { OnOk result (IsKindPut self.old self.new b None) }
    {
        self.changed.insert(b.0, None)?;
        Ok(())
    }

    /// Takes out the content of a block, to be changed and put again: the content that was put, or a copy
    /// of that in the view.
    #[tactic(auto, unfolding(crate::specs::Pages::pages_of, crate::specs::Pages::view_of, crate::specs::Pages::kinds_of))]
    pub(crate) fn lift(&mut self, alloc: Global, b: BlockNo) -> Result<Block, OutOfMemory>
        requires { IsHeld (pages_of self.old) b }
        ensures content { IfOk result (λ block. pages_of self.old b ≡ Some (Some block)) }
        ensures rest { OnOk result (IsLifted self.old self.new b) }
    {
        if let Some(Some(change)) = self.changed.remove(&b.0) {
            return Ok(change.content);
        }
        self.held(b).copy(alloc)
    }
}
