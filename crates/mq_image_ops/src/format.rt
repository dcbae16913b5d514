// The image of a fresh drive: one of zeros, and one that holds the empty file system.
ghost use Rattle.std.specs.Prelude.{◌≡◌, ◌<◌, ◌≤◌, ◌+◌, ℕ, [], ◌∷◌, length, IfOk, None, slice_index_or};
ghost use Rattle.mq_blocks.specs.Limits.{depth};
ghost use Rattle.mq_blocks.specs.Blocks.{block_at};
ghost use Rattle.mq_blocks.specs.Geometry.{area_of, homes_of, meta_of, queues_of, zone_size};
ghost use Rattle.mq_drive.specs.Roles.{slots_of};
ghost use Rattle.mq_image_ops.specs.Empty.{AreBlankQueues, IsBlankDrive, IsBlankQueue, IsEmptyDrive, IsFreshRoot, IsUnused};
ghost use Rattle.mq_layout.specs.Empty.{empty_block};
ghost use Rattle.mq_nvme.specs.Entry.{blank};

use crate::width::an_image_fits_its_file;
use mq_blocks::{Block, BlockNo, Geometry, OutOfMemory, RING_DEPTH};
use mq_drive::PortImage;
use mq_image::DriveImage;
use mq_layout::format_block;
use mq_nvme::Entry;
use std::alloc::Global;

/// The image of a fresh drive that holds the empty file system. Only three of its blocks are there: the
/// superblock, the bitmap of the inodes and the first block of their table. All others are absent, and read
/// as zeros.
pub fn format_drive(alloc: Global, geometry: Geometry) -> Result<DriveImage, OutOfMemory>
    ensures is { IfOk result (IsEmptyDrive geometry) }
{
    let mut ports = blank_queues(alloc, geometry)?;
    let blocks = meta_blocks(alloc, geometry)?;
    ports.push(fresh_root(alloc, blocks))?;
    let image = DriveImage { geometry, ports };
    an_image_fits_its_file(&image);
    Ok(image)
}

/// The image of a fresh drive of zeros: each of its blocks is absent.
pub fn blank_drive(alloc: Global, geometry: Geometry) -> Result<DriveImage, OutOfMemory>
    ensures is { IfOk result (IsBlankDrive geometry) }
{
    let mut ports = blank_queues(alloc, geometry)?;
    let blocks = absent_blocks(alloc, geometry.meta())?;
    ports.push(fresh_root(alloc, blocks))?;
    Ok(DriveImage { geometry, ports })
}

// The root's port on which nothing has happened, with these home blocks.
fn fresh_root(alloc: Global, blocks: Vec<Option<Block>>) -> PortImage
    ensures is { (g : _) → length blocks.items ≡ meta_of g → IsFreshRoot g result }
    ensures blocks { result.blocks ≡ blocks.items }
{
    PortImage {
        doorbell: 0,
        head: 0,
        base: 0,
        slots: Vec::new(alloc),
        blocks,
    }
}

// The image of each queue's port.
fn blank_queues(alloc: Global, geometry: Geometry) -> Result<Vec<PortImage>, OutOfMemory>
    ensures { IfOk result (λ v. AreBlankQueues geometry (queues_of geometry) v.items) }
{
    let mut ports = Vec::with_capacity(alloc, geometry.queues() as usize + 1)?;
    for q in 0..geometry.queues() {
        let _queue = q;
        ports.push(blank_queue(alloc, geometry)?)?;
    }
    Ok(ports)
}

// A queue's port on which nothing has happened.
fn blank_queue(alloc: Global, geometry: Geometry) -> Result<PortImage, OutOfMemory>
    ensures { IfOk result (λ p. (q : ℕ) → IsBlankQueue geometry q p) }
{
    Ok(PortImage {
        doorbell: 0,
        head: 0,
        base: 0,
        slots: blank_slots(alloc)?,
        blocks: absent_blocks(alloc, geometry.area() + geometry.zone())?,
    })
}

// A ring of zeros.
fn blank_slots(alloc: Global) -> Result<Vec<Entry>, OutOfMemory>
    ensures { IfOk result (λ v. (length v.items ≡ depth)
        × ((k : ℕ) → k < length v.items → slice_index_or v.items k [] ≡ blank)) }
{
    Ok(vec![in alloc; Entry::zeroed(); RING_DEPTH as usize]?)
}

// This number of blocks of zeros.
fn absent_blocks(alloc: Global, count: u32) -> Result<Vec<Option<Block>>, OutOfMemory>
    ensures { IfOk result (λ v. (length v.items ≡ count) × ((k : ℕ) → slice_index_or v.items k None ≡ None)) }
{
    let mut blocks = Vec::with_capacity(alloc, count as usize)?;
    for b in 0..count {
        let _index = b;
        blocks.push(None)?;
    }
    Ok(blocks)
}

// The metadata region of the empty file system.
fn meta_blocks(alloc: Global, geometry: Geometry) -> Result<Vec<Option<Block>>, OutOfMemory>
    ensures { IfOk result (λ v. (length v.items ≡ meta_of geometry)
        × ((b : ℕ) → b < meta_of geometry → block_at v.items b ≡ empty_block geometry b)) }
{
    let mut blocks = Vec::with_capacity(alloc, geometry.meta() as usize)?;
    for b in 0..geometry.meta() {
        blocks.push(meta_block(alloc, geometry, b)?)?;
    }
    Ok(blocks)
}

// A block of the metadata region, which is absent where it is zeros.
#[tactic(auto, unfolding(mq_layout::specs::Empty::empty_block))]
fn meta_block(alloc: Global, geometry: Geometry, b: u32) -> Result<Option<Block>, OutOfMemory>
    requires { b < homes_of geometry }
    ensures { IfOk result (λ found. block_at (found ∷ []) 0 ≡ empty_block geometry b) }
{
    if b != 0 && b != geometry.queues() + 1 && b != geometry.queues() + 2 {
        return Ok(None);
    }
    let mut block = Block::zeroed(alloc)?;
    format_block(geometry, BlockNo(b), &mut block);
    Ok(Some(block))
}
