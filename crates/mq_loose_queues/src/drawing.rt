// What a commit takes before it is drawn: all of its memory.
ghost use Rattle.std.specs.Prelude.{◌≡◌, ◌≤◌, ◌<◌, [], All, IfOk, OnOk, length, map, vec_capacity, vec_len};
ghost use Rattle.mq_blocks.specs.Descriptor.{AreRising};
ghost use Rattle.mq_blocks.specs.Geometry.{homes_of, write_limit};
ghost use Rattle.mq_ledger.specs.History.{blocks_of};
ghost use Rattle.mq_loose_order.specs.Form.{loose_bytes, loose_limit};
ghost use Rattle.mq_loose_queues.specs.Draws.{written_as};

use mq_blocks::{Block, BlockNo, OutOfMemory};
use mq_drive::Port;
use mq_loose::LooseRow;
use mq_loose_order::write_loose_descriptor;
use mq_pages::{Kind, Write};
use mq_queue_side::{Prepared, QueueSide};
use mq_revoke::Placement;
use std::alloc::Global;

/// The blocks of these writes.
pub fn blocks_of(alloc: Global, writes: &[(BlockNo, Block)]) -> Result<Vec<BlockNo>, OutOfMemory>
    ensures { IfOk result (λ v. v.items ≡ blocks_of writes.now) }
{
    let mut blocks = Vec::with_capacity(alloc, writes.len())?;
    for (block, _) in writes {
        blocks.push(*block)?;
    }
    Ok(blocks)
}

/// A copy of one write.
fn copy_write(alloc: Global, block: BlockNo, content: &Block) -> Result<Write, OutOfMemory>
    ensures is { IfOk result (λ w. (w.block ≡ block) × (w.content ≡ content.now)) }
    ensures whole { IfOk result (λ w. length w.content ≡ 4096) }
{
    let copy = content.copy(alloc)?;
    prove!(copy.bytes().len() == 4096);
    Ok(Write {
        block,
        kind: Kind::Data,
        content: copy,
    })
}

/// Copies of these writes.
pub fn copy_writes(alloc: Global, writes: &[(BlockNo, Block)]) -> Result<Vec<Write>, OutOfMemory>
    ensures is { IfOk result (λ ws. map written_as ws.items ≡ writes.now) }
    ensures whole { IfOk result (λ ws. All (λ w. length w.content ≡ 4096) ws.items) }
{
    let mut copies = Vec::with_capacity(alloc, writes.len())?;
    for (block, content) in writes {
        copies.push(copy_write(alloc, *block, content)?)?;
    }
    Ok(copies)
}

/// A plan by which all of these blocks are logged.
pub fn all_logged(alloc: Global, blocks: &[BlockNo]) -> Result<Placement, OutOfMemory>
    ensures { IfOk result (λ p. p ≡ record {
      logged = blocks.now;
      direct = [];
      revoked = [];
    }) }
{
    let mut plan = Placement::new(alloc)?;
    for block in blocks {
        plan.logged.push(*block)?;
    }
    Ok(plan)
}

/// The last block of a row's descriptor.
pub fn last_block(alloc: Global, row: &LooseRow) -> Result<Block, OutOfMemory>
    requires logged { length row.now.descriptor.logged ≤ loose_limit }
    requires deps { length row.now.deps ≤ loose_limit }
    ensures { IfOk result (λ block. block ≡ loose_bytes row.now.descriptor row.now.deps) }
{
    let mut last = Block::zeroed(alloc)?;
    write_loose_descriptor(&row.descriptor, row.deps.as_slice(), &mut last);
    Ok(last)
}

/// Prepares these writes, which are of these blocks, on a side: all of them are logged.
pub fn prepare_side<P: Port>(
    side: &mut QueueSide<P, ()>,
    alloc: Global,
    blocks: &[BlockNo],
    writes: &[(BlockNo, Block)],
) -> Result<Prepared, OutOfMemory>
    requires blocks { blocks.now ≡ blocks_of writes.now }
    requires rising { AreRising 0 (homes_of side.old.pmr.geometry) blocks.now }
    requires few { length writes.now ≤ write_limit side.old.pmr.geometry }
    ensures commit { IfOk result (λ p. p ≡ record {
      logged = writes.now;
      direct = [];
      revoked = [];
    }) }
    ensures whole { OnOk result (All (λ w. length w.1 ≡ 4096) writes.now) }
    ensures reserved { OnOk result (vec_len side.new.stored < vec_capacity side.new.stored) }
    ensures stored { side.new.stored.items ≡ side.old.stored.items }
    ensures pmr { side.new.pmr ≡ side.old.pmr }
    ensures done { side.new.done ≡ side.old.done }
    ensures kept { side.new.kept ≡ side.old.kept }
{
    let copies = copy_writes(alloc, writes)?;
    let plan = all_logged(alloc, blocks)?;
    side.prepare(alloc, &copies, &plan)
}
