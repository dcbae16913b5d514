// What stands on the home blocks by the descriptors that were chosen.
ghost use Rattle.std.specs.Prelude.{◌≡◌, ◌<◌, ℕ, List, ◌%◌, IfOk, length};
ghost use Rattle.mq_blocks.specs.Descriptor.{Descriptor as Text};
ghost use Rattle.mq_blocks.specs.Geometry.{area_of, homes_of};
ghost use Rattle.mq_recover.specs.Copies.{AreCopies};
ghost use Rattle.mq_recover.specs.Drives.{IsQuiescentDrive, drive_of, view_over};
ghost use Rattle.mq_recover.specs.Events.{AreHomeWrites};
ghost use Rattle.mq_recover.specs.Recovering.{AreStanding, HaveCopies};

use crate::chain::read_area;
use crate::copies::CopyPlace;
use mq_blocks::{Block, BlockNo, Geometry, OutOfMemory};
use mq_drive::{Port, Ports};
use std::alloc::Global;
use std::collections::VecDeque;

// Reads the copies that stand there.
pub fn read_copies<P: Port>(
    alloc: Global,
    geometry: Geometry,
    ports: &Ports<P>,
    copies: &[Option<CopyPlace>],
) -> Result<VecDeque<(BlockNo, Block)>, OutOfMemory>
    requires still { IsQuiescentDrive geometry (drive_of P.state ports.now) }
    requires copies { HaveCopies geometry copies.now }
    ensures { (ds : List Text)
        → AreCopies geometry ds copies.now
        → IfOk result (λ w. AreHomeWrites geometry (drive_of P.state ports.now) ds w.items) }
{
    let mut writes = VecDeque::new(alloc);
    for (b, copy) in copies.iter().enumerate() {
        if let Some(source) = copy {
            let mut block = Block::zeroed(alloc)?;
            read_copy_place(geometry, ports, *source, &mut block);
            writes.push_back((BlockNo(b as u32), block))?;
        }
    }
    Ok(writes)
}

/// Reads the block of a journal area that stands there.
pub fn read_copy_place<P: Port>(
    geometry: Geometry,
    ports: &Ports<P>,
    source: CopyPlace,
    into: &mut Block,
)
    requires still { IsQuiescentDrive geometry (drive_of P.state ports.now) }
    requires own { source.queue < geometry.queues }
    ensures { into.new ≡ (view_over geometry
        (drive_of P.state ports.now)).area source.queue
        (source.place % area_of geometry) }
{
    let port = &ports.queues[source.queue.0 as usize];
    read_area(geometry, source.queue, source.place, port, into);
}

/// What stands on each home block by the descriptors whose copies stand there: the block's copy, else the
/// block at home.
pub fn read_blocks<P: Port>(
    alloc: Global,
    geometry: Geometry,
    ports: &Ports<P>,
    copies: &[Option<CopyPlace>],
) -> Result<Vec<Option<Block>>, OutOfMemory>
    requires still { IsQuiescentDrive geometry (drive_of P.state ports.now) }
    requires copies { HaveCopies geometry copies.now }
    ensures { (ds : List Text)
        → AreCopies geometry ds copies.now
        → IfOk result (λ v. AreStanding geometry (drive_of P.state ports.now) ds v.items) }
{
    let mut blocks = Vec::new(alloc);
    for (b, copy) in copies.iter().enumerate() {
        let mut block = Block::zeroed(alloc)?;
        match copy {
            Some(source) => read_copy_place(geometry, ports, *source, &mut block),
            None => read_home(geometry, ports, BlockNo(b as u32), &mut block),
        }
        blocks.push(Some(block))?;
    }
    Ok(blocks)
}

/// A home block, through the port that has it.
pub fn read_home<P: Port>(geometry: Geometry, ports: &Ports<P>, b: BlockNo, into: &mut Block)
    requires still { IsQuiescentDrive geometry (drive_of P.state ports.now) }
    requires within { b < homes_of geometry }
    ensures { into.new ≡ (view_over geometry (drive_of P.state ports.now)).home b }
{
    let lba = geometry.home(b);
    match geometry.zone_of(b) {
        None => ports.root.read_block(lba, into),
        Some(queue) => ports.queues[queue.0 as usize].read_block(lba, into),
    }
}
