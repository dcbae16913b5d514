// The buckets at which a group looks.
ghost use Rattle.std.specs.Prelude.{◌≡◌, ◌≤◌, false, IfOk, MatchOption};
ghost use Rattle.mq_kv_buckets.specs.Store.{is_key as is_good_key, key_of};
ghost use Rattle.mq_kv_entries.specs.Groups.{AreAllMissing, AreLacking, LacksAt, LooksAt, LooksAtHeld};

use mq_blocks::{BlockNo, OutOfMemory};
use mq_kv_buckets::{KvOp, bucket_of, is_key};
use mq_pages::Held;
use std::alloc::Global;

// The bucket at which an operation looks; none where its key is refused for its length.
fn bucket_looked_at(op: &KvOp, buckets: u32) -> Option<BlockNo>
    requires { 1 ≤ buckets }
    ensures { MatchOption result (is_good_key (key_of op.now) ≡ false) (LooksAt buckets op.now) }
{
    let key = op.key();
    if is_key(key) {
        return Some(BlockNo(bucket_of(key, buckets)));
    }
    None
}

// The bucket at which an operation looks, if it is not held.
fn bucket_lacked(op: &KvOp, buckets: u32, held: &Held) -> Option<BlockNo>
    requires { 1 ≤ buckets }
    ensures { MatchOption result (LooksAtHeld buckets held.now.cells op.now)
        (LacksAt buckets held.now.cells op.now) }
{
    let b = bucket_looked_at(op, buckets)?;
    match held.get(b) {
        Some(_) => None,
        None => Some(b),
    }
}

// The buckets that are looked at and not held, in the order of the operations.
fn gather(
    alloc: Global,
    buckets: u32,
    ops: &[KvOp],
    held: &Held,
) -> Result<Vec<BlockNo>, OutOfMemory>
    requires { 1 ≤ buckets }
    ensures { IfOk result (λ bs. AreLacking buckets held.now.cells ops.now bs.items) }
{
    let mut lacking = Vec::new(alloc);
    for op in ops {
        if let Some(b) = bucket_lacked(op, buckets, held) {
            lacking.push(b)?;
        }
    }
    Ok(lacking)
}

/// The same, each once and in rising order.
pub(crate) fn missing(
    alloc: Global,
    buckets: u32,
    ops: &[KvOp],
    held: &Held,
) -> Result<Vec<BlockNo>, OutOfMemory>
    requires { 1 ≤ buckets }
    ensures { IfOk result (λ bs. AreAllMissing buckets held.now.cells ops.now bs.items) }
{
    let mut blocks = gather(alloc, buckets, ops, held)?;
    blocks.sort_unstable();
    blocks.dedup();
    Ok(blocks)
}
