// What a group changed.
ghost use Rattle.std.specs.Prelude.{◌≡◌, IfOk};
ghost use Rattle.std.specs.Str.{bytes_eq};
ghost use Rattle.mq_blocks.specs.Blocks.{content, zeros};
ghost use Rattle.mq_kv_entries.specs.Groups.{IsDifference, held_map};
ghost use Rattle.mq_kv_entries.specs.Working.{held_of, now, was};

use crate::working::Working;
use mq_blocks::{Block, BlockNo, OutOfMemory};
use mq_pages::{Held, Kind, Write};
use std::alloc::Global;

// Whether two lists of bytes are the same.
fn is_equal(one: &[u8], other: &[u8]) -> bool
    ensures { result ≡ bytes_eq one.now other.now }
{
    one == other
}

// Whether a block is all zeros.
fn is_blank(block: &Block) -> bool
    ensures { result ≡ bytes_eq zeros block.now }
{
    let blank = [0; 4096];
    is_equal(blank.as_slice(), block.bytes())
}

// Whether a bucket has this content before the group.
fn is_same(held: &Held, b: BlockNo, block: &Block) -> bool
    ensures { result ≡ bytes_eq (content (held_map held.now.cells b)) block.now }
{
    match held.get(b) {
        Some(cell) => match &cell.content {
            Some(before) => is_equal(before.bytes(), block.bytes()),
            None => is_blank(block),
        },
        None => is_blank(block),
    }
}

impl<'a> Working<'a> {
    /// The buckets whose bytes differ from those before the group, in rising order. They are not copied.
    pub(crate) fn difference(self, alloc: Global) -> Result<Vec<Write>, OutOfMemory>
        ensures { IfOk result (λ writes. IsDifference (was self.entry) (now self.entry) writes.items) }
    {
        let mut writes = Vec::new(alloc);
        for (b, block) in self.changed {
            if !is_same(self.held, BlockNo(b), &block) {
                writes.push(Write {
                    block: BlockNo(b),
                    kind: Kind::Meta,
                    content: block,
                })?;
            }
        }
        Ok(writes)
    }
}
