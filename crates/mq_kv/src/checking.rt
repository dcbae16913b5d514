// Whether the blocks of the metadata region are buckets.
ghost use Rattle.std.specs.Prelude.{◌≡◌, ◌≤◌, MatchResult, OnOk, IfErr, length};
ghost use Rattle.mq_blocks.specs.Blocks.{content};
ghost use Rattle.mq_blocks.specs.Geometry.{meta_of};
ghost use Rattle.mq_kv_buckets.specs.Buckets.{IsFirstBad, IsFormed};
ghost use Rattle.mq_kv.specs.Opening.{AreFormed, IsNotOpened};

use crate::refusal::KvOpenRefusal;
use mq_blocks::{Block, BlockNo, Geometry};
use mq_kv_buckets::check_bucket;

// Whether a block is a bucket, or the offset of what is wrong first. An absent block is an empty bucket.
fn check_stored(block: &Option<Block>) -> Result<(), u32>
    ensures { MatchResult result (λ _. IsFormed (content block.now)) (λ offset. IsFirstBad (content block.now) offset) }
{
    match block {
        Some(block) => check_bucket(block),
        None => Ok(()),
    }
}

/// Whether each block of the metadata region is a bucket. Else the least that is not is named.
pub fn check_buckets(geometry: Geometry, blocks: &[Option<Block>]) -> Result<(), KvOpenRefusal>
    requires { meta_of geometry ≤ length blocks.now }
    ensures formed { OnOk result (AreFormed (meta_of geometry) blocks.now) }
    ensures refused { IfErr result (IsNotOpened geometry blocks.now) }
{
    for b in 0..geometry.meta() {
        if let Err(offset) = check_stored(&blocks[b as usize]) {
            return Err(KvOpenRefusal::Bucket {
                block: BlockNo(b),
                offset,
            });
        }
    }
    Ok(())
}
