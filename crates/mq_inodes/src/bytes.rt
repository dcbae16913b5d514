// The bytes of files.
ghost use Rattle.std.specs.Prelude.{◌≡◌, ◌≤◌, ℕ, List, drop, take, IfErr, IfOk};
ghost use Rattle.std.specs.List.{All};
ghost use Rattle.mq_inodes.specs.MissingPages.{HasVolume, MissingOf, OfEach};
ghost use Rattle.mq_inodes.specs.Pages.{IsHeld, pages_of};
ghost use Rattle.mq_inodes.specs.Files.{IsFileOf, LooksInFile, bytes_at};
ghost use Rattle.mq_tree.specs.Volume.{File, body};

use crate::lack::Missing;
use crate::working::Working;
use mq_blocks::{BlockNo, OutOfMemory};
use mq_layout::Inode;
use std::alloc::Global;

const BLOCK: usize = 4096;

impl<'a> Working<'a> {
    /// `count` bytes of consecutive held blocks, from an offset in the first of them on.
    fn gather(
        &self,
        alloc: Global,
        blocks: &[BlockNo],
        skip: usize,
        count: usize,
    ) -> Result<Vec<u8>, OutOfMemory>
        requires held { All (IsHeld (pages_of self.now)) blocks.now }
        requires skip { skip ≤ 4096 }
        requires count { count ≤ 4243456 }
        ensures { IfOk result (λ bytes. bytes.items ≡ take count
            (drop skip (bytes_at (pages_of self.now) blocks.now))) }
    {
        let mut bytes = Vec::with_capacity(alloc, count)?;
        let mut skip = skip;
        let mut left = count;
        for b in blocks {
            let page = self.held(*b).bytes();
            let end = (skip + left).min(BLOCK);
            bytes.extend_from_slice(&page[skip..end])?;
            left -= end - skip;
            skip = 0;
        }
        Ok(bytes)
    }

    /// The bytes of a file from an offset on, at most `count`.
    pub fn bytes(
        &self,
        alloc: Global,
        i: u32,
        inode: &Inode,
        at: u64,
        count: u64,
    ) -> Result<Vec<u8>, Missing>
        requires possible { HasVolume self.now }
        requires file { OfEach self.now (λ v. IsFileOf v i inode.now) }
        ensures ok { IfOk result (λ found. OfEach self.now (λ v. (bytes : List ℕ)
            → body v i ≡ File bytes
            → found.items ≡ take count (drop at bytes))) }
        ensures lack { IfErr result (MissingOf self.now (λ v b. LooksInFile v i at count b)) }
    {
        let end = at.saturating_add(count).min(inode.size);
        if at >= end {
            return Ok(Vec::new(alloc));
        }
        let blocks = self.blocks(alloc, i, inode)?;
        let first = (at / 4096) as usize;
        let last = ((end - 1) / 4096) as usize;
        let touched = &blocks[first..last + 1];
        self.look_for(alloc, touched)?;
        Ok(self.gather(alloc, touched, (at % 4096) as usize, (end - at) as usize)?)
    }
}
