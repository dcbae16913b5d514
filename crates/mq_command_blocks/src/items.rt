// The items of a transaction: a copy of each block that a line sets, and then the descriptor.
ghost use Rattle.std.specs.Prelude.{◌≡◌, ◌<◌, ◌≤◌, ◌+◌, ◌^◌, length, IfOk, slice_index_or, None};
ghost use Rattle.mq_blocks.specs.Blocks.{filled as content_of};
ghost use Rattle.mq_command_blocks.specs.Commits.{blocks_in, copies_from, items_of};
ghost use Rattle.mq_block_trace.specs.Lines.{set_in, writes_from, named};
ghost use Rattle.mq_block_text.specs.Text.{AreGoodItems};

use mq_area::{Descriptor, write_descriptor};
use mq_block_text::BlockLine;
use mq_block_trace::{NAMED, fills_of};
use mq_blocks::{Block, BlockNo, Geometry, Lba, OutOfMemory, QueueNo};
use std::alloc::Global;

// The blocks that are filled.
fn filled_blocks(alloc: Global, fills: &[Option<u8>]) -> Result<Vec<BlockNo>, OutOfMemory>
    requires { length fills.now ≡ 256 }
    ensures { IfOk result (λ v. v.items ≡ blocks_in
        (writes_from (λ b. slice_index_or fills.now b None) 0 named)) }
{
    let mut blocks = Vec::new(alloc);
    for b in 0..NAMED {
        match fills[b] {
            None => {}
            Some(_) => blocks.push(BlockNo(b as u32))?,
        }
    }
    Ok(blocks)
}

/// A block of this byte.
pub fn filled(alloc: Global, byte: u8) -> Result<Block, OutOfMemory>
    ensures { IfOk result (λ b. b ≡ content_of byte) }
{
    let mut block = Block::zeroed(alloc)?;
    block.fill(byte);
    Ok(block)
}

/// The blocks that are filled, each with its content.
pub fn filled_writes(
    alloc: Global,
    fills: &[Option<u8>],
) -> Result<Vec<(BlockNo, Block)>, OutOfMemory>
    requires { length fills.now ≡ 256 }
    ensures { IfOk result (λ v. v.items ≡ writes_from (λ b. slice_index_or fills.now b None) 0 named) }
{
    let mut writes = Vec::new(alloc);
    for b in 0..NAMED {
        match fills[b] {
            None => {}
            Some(byte) => writes.push((BlockNo(b as u32), filled(alloc, byte)?))?,
        }
    }
    Ok(writes)
}

// A copy of each block that is filled, from a place on.
fn copies(
    alloc: Global,
    geometry: Geometry,
    fills: &[Option<u8>],
    place: u64,
) -> Result<Vec<(Lba, Block)>, OutOfMemory>
    requires fills { length fills.now ≡ 256 }
    requires place { place < 2 ^ 61 }
    ensures { IfOk result (λ v. v.items ≡ copies_from geometry place
        (writes_from (λ b. slice_index_or fills.now b None) 0 named)) }
{
    let mut items = Vec::new(alloc);
    let mut place = place;
    for b in 0..NAMED {
        match fills[b] {
            None => {}
            Some(byte) => {
                let lba = geometry.area_lba(QueueNo(0), place);
                items.push((lba, filled(alloc, byte)?))?;
                place += 1;
            }
        }
    }
    Ok(items)
}

/// The items of a line's transaction: its number, the place where it begins, and the place of the
/// descriptor before it.
pub fn items_of_line(
    alloc: Global,
    geometry: Geometry,
    line: &BlockLine,
    number: u64,
    next: u64,
    last: u64,
) -> Result<Vec<(Lba, Block)>, OutOfMemory>
    requires good { AreGoodItems line.now }
    requires some { 1 ≤ number }
    requires low { next < 2 ^ 61 }
    ensures { IfOk result (λ v. v.items ≡ items_of geometry number next last
        (writes_from (set_in line.now) 0 named)) }
{
    let fills = fills_of(alloc, line)?;
    let logged = filled_blocks(alloc, &fills)?;
    let mut items = copies(alloc, geometry, &fills, next)?;
    let place = next + logged.len() as u64;
    let descriptor = Descriptor {
        queue: 0,
        number,
        place,
        prev_place: last,
        prev_number: number - 1,
        logged,
        revoked: Vec::new(alloc),
    };
    let mut block = Block::zeroed(alloc)?;
    let mut further = Block::zeroed(alloc)?;
    // It lists at most `NAMED` blocks, which fit its last block.
    write_descriptor(&descriptor, &mut block, &mut further);
    items.push((geometry.area_lba(QueueNo(0), place), block))?;
    Ok(items)
}
