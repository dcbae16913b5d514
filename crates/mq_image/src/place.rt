// The blocks of a file, read in order of their Lba.
ghost use Rattle.std.specs.Prelude.{◌≡◌, ◌≤◌, ◌<◌, ◌+◌, ◌*◌, ◌^◌, ◌++◌, ℕ, [], None, Some, length, IfOk, IfErr, MatchResult};
ghost use Rattle.std.specs.List.{All, list_all};
ghost use Rattle.mq_blocks.specs.Windows.{window, number_at};
ghost use Rattle.mq_image.specs.File.{records, record_bytes, is_blank, IsBlockSized};
ghost use Rattle.mq_image.specs.Faults.{Finds, Refuses};
ghost use Rattle.mq_image.specs.Places.{IsInside, IsNext, IsSpan, fault_left, rest_of};

use crate::fault::FileFault;
use crate::header::RECORD;
use mq_blocks::bytes::{put, u32_at};
use mq_blocks::{Block, OutOfMemory};
use std::alloc::Global;

/// How far the blocks of a file have been read.
#[derive(Clone, Copy)]
pub struct Place {
    /// The offset of the next record.
    at: usize,
    /// The number of records that are still to come, and the index of the next.
    left: u32,
    index: u32,
    /// The next block of the namespace.
    lba: u32,
    /// The number of blocks of the namespace.
    size: u32,
}

/// Whether all bytes are 0.
pub fn is_zeros(bytes: &[u8]) -> bool
    ensures { result ≡ is_blank bytes.now }
{
    bytes.iter().all(|byte| *byte == 0)
}

fn copy_block(alloc: Global, bytes: &[u8]) -> Result<Block, OutOfMemory>
    requires { length bytes.now ≡ 4096 }
    ensures { IfOk result (λ b. b ≡ bytes.now) }
{
    let mut block = Block::zeroed(alloc)?;
    put(block.bytes_mut(), 0, bytes);
    Ok(block)
}

impl Place {
    /// The place before the first of `count` records.
    pub fn new(at: usize, count: u32, size: u32) -> Place
        ensures { result ≡ record { at = at; left = count; index = 0; lba = 0; size = size } }
    {
        Place {
            at,
            left: count,
            index: 0,
            lba: 0,
            size,
        }
    }

    /// The next block of the namespace. `None` is a block of zeros.
    fn next(&mut self, alloc: Global, file: &[u8]) -> Result<Option<Block>, FileFault>
        requires inside { IsInside self.old file.now }
        requires more { self.old.lba < self.old.size }
        ensures { MatchResult result (IsNext file.now self.old self.new)
            (Refuses (fault_left self.old file.now)) }
    {
        if self.left == 0 {
            self.lba += 1;
            return Ok(None);
        }
        let lba = u32_at(file, self.at);
        if lba < self.lba || lba >= self.size {
            return Err(FileFault::Order { index: self.index });
        }
        if self.lba < lba {
            self.lba += 1;
            return Ok(None);
        }
        let bytes = &file[self.at + 4..self.at + RECORD];
        if is_zeros(bytes) {
            return Err(FileFault::Zero { lba });
        }
        let block = copy_block(alloc, bytes)?;
        *self = Place {
            at: self.at + RECORD,
            left: self.left - 1,
            index: self.index + 1,
            lba: lba + 1,
            size: self.size,
        };
        Ok(Some(block))
    }

    /// The next `count` blocks of the namespace, with room for more.
    pub fn span(
        &mut self,
        alloc: Global,
        file: &[u8],
        count: u32,
        room: u32,
    ) -> Result<Vec<Option<Block>>, FileFault>
        requires inside { IsInside self.old file.now }
        requires more { self.old.lba + count ≤ self.old.size }
        ensures gives { MatchResult result (λ v. IsSpan file.now self.old self.new v.items)
            (Refuses (fault_left self.old file.now)) }
        ensures count { IfOk result (λ v. length v.items ≡ count) }
    {
        let mut blocks = Vec::with_capacity(alloc, count as usize + room as usize)?;
        for _block in 0..count {
            blocks.push(self.next(alloc, file)?)?;
        }
        Ok(blocks)
    }

    /// The offset after the last record, once the whole namespace is read.
    pub fn end(&self) -> Result<usize, FileFault>
        ensures { MatchResult result (λ end. (self.now.left ≡ 0) × (end ≡ self.now.at))
            (λ e. (0 < self.now.left)
            × (e ≡ FileFault.Order self.now.index)) }
    {
        if self.left > 0 {
            return Err(FileFault::Order { index: self.index });
        }
        Ok(self.at)
    }
}
