// The blocks of an emulated port.
ghost use Rattle.std.specs.Prelude.{◌≡◌, ◌≢◌, ◌<◌, ℕ, Bool, true, false, length, slice_index_or, slice_set, Some, None, Option};
ghost use Rattle.std.specs.Option.{ForSome};
ghost use Rattle.mq_blocks.specs.Blocks.{block_at};
ghost use Rattle.mq_drive.specs.Choices.{torn_block};
ghost use Rattle.mq_drive.specs.Failures.{doubt_after};

use crate::random::next_block;
use crate::store::{put_block, put_flag, read_block};
use mq_blocks::Block;
use rand_core::utils::NextWord;
use rand_pcg::Lcg128Xsl64;

/// Blocks as last completed, and which of them are certain, posted commands aside. The write that
/// ended with an error leaves the block at `doubt` uncertain, until a later write of it completes.
#[derive(Drop)]
pub struct Blocks {
    stored: Vec<Option<Block>>,
    certain: Vec<bool>,
    doubt: Option<usize>,
    ghost sized: { length certain.items ≡ length stored.items },
    ghost doubtful: { ForSome doubt (λ k. (k < length certain.items)
        × (slice_index_or certain.items k false ≡ false)) },
}

impl Blocks {
    /// Blocks of which all are certain, as `certain` says.
    pub fn new(blocks: Vec<Option<Block>>, certain: Vec<bool>) -> Blocks
        requires { length certain.items ≡ length blocks.items }
        ensures blocks { result.stored ≡ blocks }
        ensures certain { result.certain ≡ certain }
        ensures doubt { result.doubt ≡ None }
    {
        Blocks {
            stored: blocks,
            certain,
            doubt: None,
        }
    }

    pub fn read(&self, k: usize, into: &mut Block)
        requires { k < length self.now.stored.items }
        ensures { into.new ≡ block_at self.now.stored.items k }
    {
        read_block(&self.stored, k, into);
    }

    /// A write of the block has completed: posted commands aside, the block is certain to hold what was
    /// written.
    pub fn complete(&mut self, k: usize, block: Block)
        requires { k < length self.old.stored.items }
        ensures blocks { self.new.stored.items ≡ slice_set self.old.stored.items k (Some block) }
        ensures certain { self.new.certain.items ≡ slice_set self.old.certain.items k true }
        ensures doubt { self.new.doubt ≡ doubt_after self.old.doubt k }
    {
        put_block(&mut self.stored, k, block);
        put_flag(&mut self.certain, k, true);
        if self.doubt == Some(k) {
            self.doubt = None;
        }
    }

    /// A write of the block has begun, so that it may hold anything.
    pub fn begin(&mut self, k: usize)
        requires { k < length self.old.stored.items }
        ensures blocks { self.new.stored.items ≡ self.old.stored.items }
        ensures certain { self.new.certain.items ≡ slice_set self.old.certain.items k false }
        ensures doubt { self.new.doubt ≡ self.old.doubt }
    {
        put_flag(&mut self.certain, k, false);
    }

    /// A write of the block has ended with an error.
    pub fn fail(&mut self, k: usize)
        requires { k < length self.old.stored.items }
        ensures blocks { self.new.stored.items ≡ self.old.stored.items }
        ensures certain { self.new.certain.items ≡ slice_set self.old.certain.items k false }
        ensures doubt { self.new.doubt ≡ Some k }
    {
        put_flag(&mut self.certain, k, false);
        self.doubt = Some(k);
    }

    /// Chooses what a block holds that a write may have changed: what it held, what the write
    /// brings, or any bytes.
    pub fn tear(&mut self, k: usize, block: Block, rng: &mut Lcg128Xsl64)
        requires { k < length self.old.stored.items }
        ensures len { length self.new.stored.items ≡ length self.old.stored.items }
        ensures certain { self.new.certain.items ≡ self.old.certain.items }
        ensures others { (j : ℕ)
            → j ≢ k
            → slice_index_or self.new.stored.items j None ≡ slice_index_or self.old.stored.items j None }
        ensures chosen { (self.new.stored.items, rng.new) ≡ torn_block self.old.stored.items k block rng.old }
    {
        let block = match rng.next_word() % 3 {
            0 => return,
            1 => block,
            _ => next_block(rng, block),
        };
        put_block(&mut self.stored, k, block);
    }

    /// The block that the write that ended with an error leaves uncertain, if there is one.
    pub fn doubt(&self) -> Option<usize>
        ensures { result ≡ self.now.doubt }
    {
        self.doubt
    }

    /// The blocks as they are.
    pub fn into_inner(self) -> Vec<Option<Block>>
        ensures { result ≡ self.stored }
    {
        self.stored
    }
}
