// The lists of an entry.
ghost use Rattle.std.specs.Prelude.{◌≡◌, IfOk, map};

use mq_blocks::OutOfMemory;
use mq_kv_buckets::{Key, KvOp, KvReply, Value};
use mq_ledger::Blocks;
use mq_pages::Write;
use std::alloc::Global;
use std::marker::Model;

/// The operations of a group, in order.
#[derive(Drop)]
pub struct KvOps(pub Vec<KvOp>);

impl Model for KvOps {
    ghost use Rattle.std.specs.Prelude.{List};
    ghost use Rattle.mq_kv_buckets.specs.declared.operation.KvOp.{KvOp};

    ghost Value = { List KvOp };

    ghost view = { λ r. r.0.items };
}

/// The replies to a group, in the order of its operations.
#[derive(Drop)]
pub struct KvReplies(pub Vec<KvReply>);

impl Model for KvReplies {
    ghost use Rattle.std.specs.Prelude.{List};
    ghost use Rattle.mq_kv_buckets.specs.declared.operation.KvReply.{KvReply};

    ghost Value = { List KvReply };

    ghost view = { λ r. r.0.items };
}

// A copy of a key.
fn copy_key(alloc: Global, key: &Key) -> Result<Key, OutOfMemory>
    ensures { IfOk result (λ copy. copy ≡ key.now) }
{
    Ok(Key(Vec::from_slice(alloc, &key.0)?))
}

// A copy of a value.
fn copy_value(alloc: Global, value: &Value) -> Result<Value, OutOfMemory>
    ensures { IfOk result (λ copy. copy ≡ value.now) }
{
    Ok(Value(Vec::from_slice(alloc, &value.0)?))
}

// A copy of an operation.
fn copy_op(alloc: Global, op: &KvOp) -> Result<KvOp, OutOfMemory>
    ensures { IfOk result (λ copy. copy ≡ op.now) }
{
    match op {
        KvOp::Put(key, value) => Ok(KvOp::Put(copy_key(alloc, key)?, copy_value(alloc, value)?)),
        KvOp::Delete(key) => Ok(KvOp::Delete(copy_key(alloc, key)?)),
        KvOp::Get(key) => Ok(KvOp::Get(copy_key(alloc, key)?)),
    }
}

// A copy of a reply.
fn copy_reply(alloc: Global, reply: &KvReply) -> Result<KvReply, OutOfMemory>
    ensures { IfOk result (λ copy. copy ≡ reply.now) }
{
    match reply {
        KvReply::Done => Ok(KvReply::Done),
        KvReply::Value(value) => Ok(KvReply::Value(copy_value(alloc, value)?)),
        KvReply::Missing => Ok(KvReply::Missing),
        KvReply::Refused(fault) => Ok(KvReply::Refused(*fault)),
    }
}

/// A copy of the operations.
pub(crate) fn copy_ops(alloc: Global, ops: &[KvOp]) -> Result<KvOps, OutOfMemory>
    ensures { IfOk result (λ copy. copy ≡ ops.now) }
{
    let mut copies = Vec::with_capacity(alloc, ops.len())?;
    for op in ops {
        copies.push(copy_op(alloc, op)?)?;
    }
    Ok(KvOps(copies))
}

/// A copy of the replies.
pub(crate) fn copy_replies(alloc: Global, replies: &[KvReply]) -> Result<KvReplies, OutOfMemory>
    ensures { IfOk result (λ copy. copy ≡ replies.now) }
{
    let mut copies = Vec::with_capacity(alloc, replies.len())?;
    for reply in replies {
        copies.push(copy_reply(alloc, reply)?)?;
    }
    Ok(KvReplies(copies))
}

/// The blocks that are written, in order.
pub(crate) fn blocks_of(alloc: Global, writes: &[Write]) -> Result<Blocks, OutOfMemory>
    ensures { IfOk result (λ blocks. blocks ≡ map (λ w. w.block) writes.now) }
{
    let mut blocks = Vec::with_capacity(alloc, writes.len())?;
    for write in writes {
        blocks.push(write.block)?;
    }
    Ok(Blocks(blocks))
}
