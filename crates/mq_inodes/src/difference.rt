// What requests changed over the pages of a view.
ghost use Rattle.std.specs.Prelude.{◌≡◌, IfOk};
ghost use Rattle.std.specs.List.{All};
ghost use Rattle.mq_inodes.specs.Differences.{Differs, HasKind, has_content, has_page};
ghost use Rattle.mq_inodes.specs.Pages.{changed_of, held_pages, view_of};

use crate::working::Working;
use mq_blocks::{Block, BlockNo, OutOfMemory};
use mq_pages::{Held, Kind, Write};
use std::alloc::Global;

/// Whether a block is held with just this content.
fn is_same(held: &Held, b: BlockNo, content: &Block) -> bool
    ensures { result ≡ has_page (held_pages held.now.cells b) content.now }
{
    match held.get(b) {
        Some(cell) => match &cell.content {
            Some(block) => block.bytes() == content.bytes(),
            None => false,
        },
        None => false,
    }
}

/// Whether a block is held with some content.
fn is_filled(held: &Held, b: BlockNo) -> bool
    ensures { result ≡ has_content (held_pages held.now.cells b) }
{
    match held.get(b) {
        Some(cell) => cell.content.is_some(),
        None => false,
    }
}

impl<'a> Working<'a> {
    /// The blocks that are written, and those that are freed, in rising order: those whose state
    /// differs from that in the view. Their content is not copied.
    pub fn difference(self, alloc: Global) -> Result<(Vec<Write>, Vec<BlockNo>), OutOfMemory>
        ensures differs { IfOk result (λ found. Differs (view_of self.entry)
            (changed_of self.entry) found.0.items found.1.items) }
        ensures kinds { IfOk result (λ found. All (HasKind self.entry) found.0.items) }
    {
        let mut writes = Vec::new(alloc);
        let mut frees = Vec::new(alloc);
        for (b, page) in self.changed {
            if let Some(change) = page {
                if !is_same(self.held, BlockNo(b), &change.content) {
                    let is_meta = b < self.geometry.meta();
                    writes.push(Write {
                        block: BlockNo(b),
                        kind: if is_meta { Kind::Meta } else { change.kind },
                        content: change.content,
                    })?;
                }
            } else if is_filled(self.held, BlockNo(b)) {
                frees.push(BlockNo(b))?;
            }
        }
        Ok((writes, frees))
    }
}
