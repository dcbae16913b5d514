// What an operation does in its bucket.
ghost use Rattle.std.specs.Prelude.{◌≡◌, ◌≤◌, IfOk, length};
ghost use Rattle.std.specs.Option.{option_copied};
ghost use Rattle.mq_blocks.specs.Blocks.{content};
ghost use Rattle.mq_kv_buckets.specs.Buckets.{IsFormed, bucket_bytes, records_of};
ghost use Rattle.mq_kv_buckets.specs.Records.{lookup};
ghost use Rattle.mq_kv_buckets.specs.Steps.{IsDeleteStep, IsPlace, IsPutStep, IsStep};
ghost use Rattle.mq_kv_buckets.specs.declared.operation.KvReply.TheVariants.{Done};
ghost use Rattle.mq_kv_buckets.specs.Store.{done_in, key_of, read_reply, reply};

use crate::edit::{put, remove};
use crate::key::{VALUE_LIMIT, is_key};
use crate::operation::{KvFault, KvOp, KvReply, Value};
use crate::record::LENGTHS;
use crate::spot::{Spot, end_of, find, get};
use mq_blocks::{Block, OutOfMemory};
use std::alloc::Global;

/// The bytes of a bucket.
const BUCKET_SIZE: usize = 4096;

/// Where the record of a key is in its bucket, or would be, and where the records end.
#[derive(Clone, Copy, PartialEq, Eq)]
pub struct Place {
    pub spot: Spot,
    pub end: usize,
}

/// What an operation comes to in its bucket.
#[derive(Drop)]
pub enum Step {
    /// It changes nothing, and is answered so.
    Reply(KvReply),
    /// It is done by an edit at this place.
    Edit(Place),
}

// The place of a key in a bucket, which is empty where its block is absent.
fn place_of(bucket: Option<&Block>, key: &[u8]) -> Place
    requires { IsFormed (content (option_copied bucket)) }
    ensures { IsPlace (records_of (content (option_copied bucket.entry))) key.now result }
{
    match bucket {
        Some(block) => {
            let spot = find(block, key);
            Place {
                spot,
                end: end_of(block, spot),
            }
        }
        None => Place {
            spot: Spot { at: 0, size: 0 },
            end: 0,
        },
    }
}

// A copy of the value under a key, or that it is missing.
fn read(alloc: Global, bucket: Option<&Block>, key: &[u8]) -> Result<KvReply, OutOfMemory>
    requires { IsFormed (content (option_copied bucket)) }
    ensures { IfOk result (λ r. r ≡ read_reply (lookup (records_of (content (option_copied bucket.entry))) key.now)) }
{
    let Some(block) = bucket else {
        return Ok(KvReply::Missing);
    };
    let Some(value) = get(block, key) else {
        return Ok(KvReply::Missing);
    };
    let mut bytes = Vec::with_capacity(alloc, value.len())?;
    bytes.extend_from_slice(value)?;
    Ok(KvReply::Value(Value(bytes)))
}

// What a put of a good key comes to.
fn plan_put(bucket: Option<&Block>, key: &[u8], value: &[u8]) -> Step
    requires formed { IsFormed (content (option_copied bucket)) }
    requires key { length key.now ≤ 255 }
    ensures { IsPutStep (records_of (content (option_copied bucket.entry))) key.now value.now result }
{
    if value.len() > VALUE_LIMIT {
        return Step::Reply(KvReply::Refused(KvFault::ValueSize));
    }
    let place = place_of(bucket, key);
    if place.end - place.spot.size + LENGTHS + key.len() + value.len() > BUCKET_SIZE {
        return Step::Reply(KvReply::Refused(KvFault::BucketFull));
    }
    Step::Edit(place)
}

// What a delete of a good key comes to.
fn plan_delete(bucket: Option<&Block>, key: &[u8]) -> Step
    requires { IsFormed (content (option_copied bucket)) }
    ensures { IsDeleteStep (records_of (content (option_copied bucket.entry))) key.now result }
{
    let place = place_of(bucket, key);
    if place.spot.size == 0 {
        return Step::Reply(KvReply::Missing);
    }
    Step::Edit(place)
}

/// What an operation comes to in the bucket of its key, which is empty where its block is absent.
pub fn plan(alloc: Global, bucket: Option<&Block>, op: &KvOp) -> Result<Step, OutOfMemory>
    requires { IsFormed (content (option_copied bucket)) }
    ensures { IfOk result (IsStep (records_of (content (option_copied bucket.entry))) op.now) }
{
    if !is_key(op.key()) {
        return Ok(Step::Reply(KvReply::Refused(KvFault::KeySize)));
    }
    match op {
        KvOp::Put(key, value) => Ok(plan_put(bucket, &key.0, &value.0)),
        KvOp::Delete(key) => Ok(plan_delete(bucket, &key.0)),
        KvOp::Get(key) => Ok(Step::Reply(read(alloc, bucket, &key.0)?)),
    }
}

/// Changes the bucket of an operation's key as planned, by an edit in place.
pub fn carry_out(block: &mut Block, op: &KvOp, place: Place)
    requires formed { IsFormed block.old }
    requires done { reply op.now (records_of block.old) ≡ Done }
    requires place { IsPlace (records_of block.old) (key_of op.now) place }
    ensures { block.new ≡ bucket_bytes (done_in op.now (records_of block.old)) }
{
    match op {
        KvOp::Put(key, value) => put(block, place.spot, place.end, &key.0, &value.0),
        KvOp::Delete(_) => remove(block, place.spot, place.end),
        KvOp::Get(_) => {}
    }
}
