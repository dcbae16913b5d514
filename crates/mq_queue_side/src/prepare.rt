// Preparing a transaction: all the memory that its commit takes.
ghost use Rattle.std.specs.Prelude.{◌≡◌, ◌<◌, ◌≤◌, ◌+◌, ℕ, length, drop, map, reverse, vec_len, vec_capacity, IfOk, OnOk};
ghost use Rattle.mq_blocks.specs.Limits.{list_limit};
ghost use Rattle.mq_blocks.specs.Geometry.{homes_of, write_limit};
ghost use Rattle.mq_ledger.specs.History.{blocks_of};
ghost use Rattle.mq_pages.specs.Shadows.{shadow_of};
ghost use Rattle.mq_queue_side.specs.Commits.{IsPlanOf, commit_by};
ghost use Rattle.mq_queue_side.specs.Parts.{is_head, pages_in, pages_out, AreLeft, HasFurther};

use crate::commit::take_first;
use crate::{Prepared, QueueSide};
use mq_blocks::{Block, BlockNo, ENTRIES_IN_ONE, OutOfMemory};
use mq_drive::Port;
use mq_pages::{ShadowPage, Write, shadow};
use mq_revoke::Placement;
use std::alloc::Global;

// The pages of a list of blocks, and the others.
#[derive(Drop)]
struct Parted {
    listed: Vec<ShadowPage>,
    others: Vec<ShadowPage>,
}

// Whether the block at this place of a list is this one.
fn is_next(blocks: &[BlockNo], at: usize, block: BlockNo) -> bool
    ensures { result ≡ is_head block (drop at blocks.now) }
{
    match blocks.get(at) {
        Some(next) => *next == block,
        None => false,
    }
}

// Parts pages by whether their blocks are listed, in a walk along both lists.
fn part(
    alloc: Global,
    mut pages: Vec<ShadowPage>,
    blocks: &[BlockNo],
) -> Result<Parted, OutOfMemory>
    requires { AreLeft blocks.now pages.items }
    ensures listed { IfOk result (λ p. p.listed.items ≡ pages_in blocks.now pages.items) }
    ensures others { IfOk result (λ p. p.others.items ≡ pages_out blocks.now pages.items) }
{
    let mut listed = Vec::with_capacity(alloc, blocks.len())?;
    let mut others = Vec::new(alloc);
    let mut at = 0;
    pages.reverse();
    'parting: while !pages.is_empty() {
        let page = take_first(&mut pages);
        if is_next(blocks, at, page.block) {
            at += 1;
            listed.push(page)?;
            continue;
        }
        others.push(page)?;
    }
    Ok(Parted { listed, others })
}

// The further block of a descriptor with so many entries, where they ask for one.
fn take_further(alloc: Global, count: u64) -> Result<Option<Block>, OutOfMemory>
    ensures { IfOk result (HasFurther count) }
{
    if count <= ENTRIES_IN_ONE {
        return Ok(None);
    }
    Ok(Some(Block::zeroed(alloc)?))
}

// Shadows of the writes, parted by a plan, and the memory for their way into the ring.
fn prepare_commit(
    alloc: Global,
    writes: &[Write],
    plan: &Placement,
) -> Result<Prepared, OutOfMemory>
    requires plan { (homes : ℕ) × IsPlanOf homes (map (λ w. w.block) writes.now) plan.now }
    requires few { length writes.now ≤ list_limit }
    ensures commit { IfOk result (λ p. p ≡ commit_by plan.now writes.now) }
    ensures placed { IfOk result (λ p. (blocks_of p.logged ≡ plan.now.logged)
        × (blocks_of p.direct ≡ plan.now.direct)) }
    ensures size { IfOk result (λ p. (length p.logged ≡ length plan.now.logged)
        × (length p.direct ≡ length plan.now.direct)) }
{
    let pages = shadow(alloc, writes)?;
    let parted = part(alloc, pages, &plan.logged)?;
    Ok(Prepared {
        logged: parted.listed,
        direct: parted.others,
        blocks: Vec::from_slice(alloc, &plan.logged)?,
        revoked: Vec::from_slice(alloc, &plan.revoked)?,
        block: Block::zeroed(alloc)?,
        further: take_further(alloc, plan.logged.len() as u64 + plan.revoked.len() as u64)?,
        items: Vec::with_capacity(alloc, writes.len() + 2)?,
    })
}

impl<P: Port, E> QueueSide<P, E> {
    /// Prepares a transaction of these writes, in rising order of blocks, where the plan says of each
    /// whether it is logged or direct. Takes all the memory that the commit needs: copies of what is
    /// written, the descriptor's block, the list of what goes into the ring, and a place among the
    /// stored transactions. A refusal changes nothing.
    pub fn prepare(
        &mut self,
        alloc: Global,
        writes: &[Write],
        plan: &Placement,
    ) -> Result<Prepared, OutOfMemory>
        requires plan { IsPlanOf (homes_of self.old.pmr.geometry) (map (λ w. w.block) writes.now) plan.now }
        requires few { length writes.now ≤ write_limit self.old.pmr.geometry }
        ensures commit { IfOk result (λ p. p ≡ commit_by plan.now writes.now) }
        ensures placed { IfOk result (λ p. (blocks_of p.logged ≡ plan.now.logged)
            × (blocks_of p.direct ≡ plan.now.direct)) }
        ensures size { IfOk result (λ p. (length p.logged ≡ length plan.now.logged)
            × (length p.direct ≡ length plan.now.direct)) }
        ensures reserved { OnOk result (vec_len self.new.stored < vec_capacity self.new.stored) }
        ensures room { vec_capacity self.old.stored ≤ vec_capacity self.new.stored }
        ensures stored { self.new.stored.items ≡ self.old.stored.items }
        ensures pmr { self.new.pmr ≡ self.old.pmr }
        ensures done { self.new.done ≡ self.old.done }
        ensures kept { self.new.kept ≡ self.old.kept }
    {
        let prepared = prepare_commit(alloc, writes, plan)?;
        self.stored.reserve(1)?;
        Ok(prepared)
    }
}
