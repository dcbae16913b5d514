// The cells of the home blocks, as a desk is opened with them.
ghost use Rattle.std.specs.Prelude.{◌≡◌, ◌<◌, ◌≤◌, ◌++◌, ◌∷◌, [], List, Option, ℕ, IfOk, length};
ghost use Rattle.mq_blocks.specs.Geometry.{homes_of, meta_of};
ghost use Rattle.mq_tree.specs.Laid.{is_marked, map_of};
ghost use Rattle.mq_calls.specs.Opening.{first_cells};

use mq_blocks::{Block, BlockNo, Geometry, OutOfMemory};
use mq_layout::{bit, zone_bitmap};
use mq_pages::PageCell;
use mq_recover::Standing;
use std::alloc::Global;

// Whether the bit of a block of a zone is set in the bitmap of the zone.
fn is_marked(geometry: Geometry, blocks: &[Option<Block>], b: BlockNo) -> bool
    requires zone { meta_of geometry ≤ b }
    requires home { b < homes_of geometry }
    requires within { meta_of geometry ≤ length blocks.now }
    ensures { result ≡ is_marked geometry blocks.now b }
{
    let Some(zone) = geometry.zone_of(b) else {
        unreachable!()
    };
    let bitmap = zone_bitmap(geometry, zone).0 as usize;
    match &blocks[bitmap] {
        Some(block) => bit(block, (b.0 - geometry.meta()) % geometry.zone()),
        None => false,
    }
}

// What the map has at a block that stands behind these: itself, where an absent one is zeros, unless it is
// a block of a zone whose bit is not set.
fn content_of(
    alloc: Global,
    geometry: Geometry,
    before: &[Option<Block>],
    b: BlockNo,
    block: Option<Block>,
) -> Result<Option<Block>, OutOfMemory>
    requires place { b ≡ length before.now }
    requires home { b < homes_of geometry }
    ensures { (rest : List (Option (List ℕ)))
        → IfOk result (λ content. content ≡ map_of geometry (before.now ++ block ∷ rest) b) }
{
    let is_free = b.0 >= geometry.meta() && !is_marked(geometry, before, b);
    if is_free {
        return Ok(None);
    }
    match block {
        Some(block) => Ok(Some(block)),
        None => Ok(Some(Block::zeroed(alloc)?)),
    }
}

/// A cell for each home block, whose content is moved out of what stands there. The last block goes first,
/// so that the bitmaps are read before they are moved.
pub fn make_cells(
    alloc: Global,
    geometry: Geometry,
    standing: Standing,
) -> Result<Vec<PageCell>, OutOfMemory>
    requires whole { length standing.blocks.items ≡ homes_of geometry }
    ensures { IfOk result (λ cells. cells.items ≡ first_cells geometry standing.blocks.items standing.base) }
{
    let base = standing.base;
    let mut blocks = standing.blocks;
    let mut cells = Vec::with_capacity(alloc, blocks.len())?;
    while let Some(block) = blocks.pop() {
        let b = BlockNo(blocks.len() as u32);
        let content = content_of(alloc, geometry, &blocks, b, block)?;
        cells.push_reserved(PageCell {
            content,
            version: base,
            last_logged: base,
            home_version: base,
        });
    }
    cells.reverse();
    Ok(cells)
}
