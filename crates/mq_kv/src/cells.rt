// The cells of the home blocks, as a desk is opened with them.
ghost use Rattle.std.specs.Prelude.{◌≡◌, IfOk, length};
ghost use Rattle.mq_blocks.specs.Blocks.{content as bytes_of};
ghost use Rattle.mq_blocks.specs.Geometry.{homes_of, meta_of};
ghost use Rattle.mq_kv.specs.Opening.{bucket_in, first_cells};

use mq_blocks::{Block, BlockNo, Geometry, OutOfMemory};
use mq_pages::PageCell;
use mq_recover::Standing;
use std::alloc::Global;

// What the map has at a block: a bucket, where an absent one is zeros; or nothing, in a zone.
fn content_of(
    alloc: Global,
    geometry: Geometry,
    b: BlockNo,
    block: Option<Block>,
) -> Result<Option<Block>, OutOfMemory>
    ensures { IfOk result (λ content. content ≡ bucket_in (meta_of geometry) b (bytes_of block)) }
{
    if b.0 >= geometry.meta() {
        return Ok(None);
    }
    match block {
        Some(block) => Ok(Some(block)),
        None => Ok(Some(Block::zeroed(alloc)?)),
    }
}

/// A cell for each home block, whose content is moved out of what stands there.
pub fn make_cells(
    alloc: Global,
    geometry: Geometry,
    standing: Standing,
) -> Result<Vec<PageCell>, OutOfMemory>
    requires whole { length standing.blocks.items ≡ homes_of geometry }
    ensures { IfOk result (λ cells. cells.items ≡ first_cells geometry standing.blocks.items standing.base) }
{
    let base = standing.base;
    let mut blocks = standing.blocks;
    let mut cells = Vec::with_capacity(alloc, blocks.len())?;
    while let Some(block) = blocks.pop() {
        let b = BlockNo(blocks.len() as u32);
        let content = content_of(alloc, geometry, b, block)?;
        cells.push_reserved(PageCell {
            content,
            version: base,
            last_logged: base,
            home_version: base,
        });
    }
    cells.reverse();
    Ok(cells)
}
