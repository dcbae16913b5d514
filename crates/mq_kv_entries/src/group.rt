// A group of operations, one after another.
ghost use Rattle.std.specs.Prelude.{◌≡◌, ◌≤◌, IfOk, OnOk};
ghost use Rattle.mq_blocks.specs.Blocks.{content};
ghost use Rattle.mq_kv_buckets.specs.Buckets.{IsFormed};
ghost use Rattle.mq_kv_buckets.specs.Keys.{bucket_of as bucket};
ghost use Rattle.mq_kv_buckets.specs.Store.{AreBuckets, key_of, replies_on, reply_on};
ghost use Rattle.mq_kv_entries.specs.Groups.{Answers, IsPossible};
ghost use Rattle.mq_kv_entries.specs.Working.{HasRun, IsStepped, now};

use crate::missing::missing;
use crate::outcome::{KvDone, KvOutcome};
use crate::working::Working;
use mq_blocks::{BlockNo, OutOfMemory};
use mq_kv_buckets::{KvOp, KvReply, Step, bucket_of, carry_out, plan};
use mq_pages::Held;
use std::alloc::Global;

// One operation.
fn step(
    alloc: Global,
    working: &mut Working,
    buckets: u32,
    op: &KvOp,
) -> Result<KvReply, OutOfMemory>
    requires some { 1 ≤ buckets }
    requires formed { IsFormed (content (now working.old (bucket buckets (key_of op.now)))) }
    ensures reply { IfOk result (λ r. r ≡ reply_on buckets (now working.old) op.now) }
    ensures stepped { OnOk result (IsStepped buckets working.old working.new op.now) }
{
    let b = BlockNo(bucket_of(op.key(), buckets));
    match plan(alloc, working.bucket(b), op)? {
        Step::Reply(reply) => Ok(reply),
        Step::Edit(place) => {
            let mut block = working.lift(alloc, b)?;
            carry_out(&mut block, op, place);
            working.put(b, block)?;
            Ok(KvReply::Done)
        }
    }
}

// All operations of a group.
fn run_all(
    alloc: Global,
    working: &mut Working,
    buckets: u32,
    ops: &[KvOp],
) -> Result<Vec<KvReply>, OutOfMemory>
    requires some { 1 ≤ buckets }
    requires formed { AreBuckets buckets (now working.old) }
    ensures replies { IfOk result (λ rs. rs.items ≡ replies_on buckets (now working.old) ops.now) }
    ensures run { OnOk result (HasRun buckets working.old working.new ops.now) }
{
    let mut replies = Vec::with_capacity(alloc, ops.len())?;
    for op in ops {
        replies.push(step(alloc, working, buckets, op)?)?;
    }
    Ok(replies)
}

/// What a group of operations comes to on held buckets, of so many on the drive. The group needs the buckets
/// of its keys, all at once; each is copied once at most, where it is changed.
pub fn run(alloc: Global, buckets: u32, ops: &[KvOp], held: &Held) -> Result<KvOutcome, OutOfMemory>
    requires some { 1 ≤ buckets }
    requires possible { IsPossible buckets held.now.cells }
    ensures { IfOk result (Answers buckets held.now.cells ops.now) }
{
    let blocks = missing(alloc, buckets, ops, held)?;
    if !blocks.is_empty() {
        return Ok(KvOutcome::Need(blocks));
    }
    let mut working = Working::new(alloc, held);
    let replies = run_all(alloc, &mut working, buckets, ops)?;
    let writes = working.difference(alloc)?;
    Ok(KvOutcome::Done(KvDone { replies, writes }))
}
