// Copies of what a transaction writes.
ghost use Rattle.std.specs.Prelude.{◌≡◌, map, IfOk};
ghost use Rattle.mq_pages.specs.Shadows.{shadow_of};

use crate::{ShadowPage, Write};
use mq_blocks::OutOfMemory;
use std::alloc::Global;

/// Copies of all these writes, in their order. If memory runs out, no copy is left.
pub fn shadow(alloc: Global, writes: &[Write]) -> Result<Vec<ShadowPage>, OutOfMemory>
    ensures { IfOk result (λ pages. pages.items ≡ map shadow_of writes.now) }
{
    let mut pages = Vec::with_capacity(alloc, writes.len())?;
    for write in writes {
        pages.push(ShadowPage {
            block: write.block,
            content: write.content.copy(alloc)?,
        })?;
    }
    Ok(pages)
}
