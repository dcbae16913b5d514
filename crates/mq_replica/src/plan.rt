// What a transaction of the replica writes: the writes of an update, and the number in the last block.
ghost use Rattle.std.specs.Prelude.{◌≡◌, ◌≤◌, ◌<◌, ◌+◌, ◌++◌, ◌∷◌, [], All, length, map, IfOk, MatchOption};
ghost use Rattle.mq_blocks.specs.Geometry.{homes_of, write_limit};
ghost use Rattle.mq_ledger.specs.History.{blocks_of};
ghost use Rattle.mq_replica.specs.Contents.{numbered_block};
ghost use Rattle.mq_replica.specs.Plans.{written_as};
ghost use Rattle.mq_replica.specs.Updates.{AreBelow, AreWritesFit, IsFirstNotBelow, last_home, update_limit};

use crate::number::numbered_block;
use crate::update::Update;
use mq_blocks::{Block, BlockNo, Geometry, OutOfMemory, TxNo};
use mq_pages::{Kind, Write};
use mq_revoke::Placement;
use std::alloc::Global;

/// The last home block, which says how far a replica has come.
pub fn last_home(geometry: Geometry) -> BlockNo
    ensures { result ≡ last_home geometry }
{
    BlockNo(geometry.homes() - 1)
}

/// The most writes of an update.
pub fn update_limit(geometry: Geometry) -> u32
    ensures { result ≡ update_limit geometry }
{
    geometry.write_limit() - 1
}

/// The first of the writes' blocks that isn't below this one.
pub fn first_not_below(high: BlockNo, writes: &[(BlockNo, Block)]) -> Option<BlockNo>
    ensures { MatchOption result (AreBelow high (blocks_of writes.now))
        (IsFirstNotBelow high (blocks_of writes.now)) }
{
    for (block, _) in writes {
        if *block >= high {
            return Some(*block);
        }
    }
    None
}

// A copy of one write.
fn copy_write(alloc: Global, block: BlockNo, content: &Block) -> Result<Write, OutOfMemory>
    ensures is { IfOk result (λ w. (w.block ≡ block) × (w.content ≡ content.now)) }
    ensures whole { IfOk result (λ w. length w.content ≡ 4096) }
{
    let copy = content.copy(alloc)?;
    prove!(copy.bytes().len() == 4096);
    Ok(Write {
        block,
        kind: Kind::Data,
        content: copy,
    })
}

// The write of an update's number into the last home block.
fn write_number(alloc: Global, geometry: Geometry, number: TxNo) -> Result<Write, OutOfMemory>
    ensures is { IfOk result (λ w. (w.block ≡ last_home geometry) × (w.content ≡ numbered_block number)) }
    ensures whole { IfOk result (λ w. length w.content ≡ 4096) }
{
    let content = numbered_block(alloc, number)?;
    prove!(content.bytes().len() == 4096);
    Ok(Write {
        block: last_home(geometry),
        kind: Kind::Meta,
        content,
    })
}

/// The writes of an update, and then its number in the last home block.
pub fn writes_of(
    alloc: Global,
    geometry: Geometry,
    update: &Update,
) -> Result<Vec<Write>, OutOfMemory>
    ensures is { IfOk result (λ ws. map written_as ws.items ≡ update.now.writes ++
        (last_home geometry, numbered_block update.now.number) ∷ []) }
    ensures whole { IfOk result (λ ws. All (λ w. length w.content ≡ 4096) ws.items) }
{
    let writes = update.writes.as_slice();
    let mut all = Vec::with_capacity(alloc, writes.len() + 1)?;
    for (block, content) in writes {
        all.push(copy_write(alloc, *block, content)?)?;
    }
    all.push(write_number(alloc, geometry, update.number)?)?;
    Ok(all)
}

/// A plan by which all of these writes are logged.
pub fn all_logged(alloc: Global, writes: &[Write]) -> Result<Placement, OutOfMemory>
    ensures { IfOk result (λ p. p ≡ record {
      logged = map (λ w. w.block) writes.now;
      direct = [];
      revoked = [];
    }) }
{
    let mut plan = Placement::new(alloc)?;
    for write in writes {
        plan.logged.push(write.block)?;
    }
    Ok(plan)
}
