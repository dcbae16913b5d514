// The lists of a transaction.
ghost use Rattle.std.specs.Prelude.{◌≡◌, IfOk};

use mq_blocks::{BlockNo, OutOfMemory};
use std::alloc::Global;
use std::marker::Model;

/// The 4,096 bytes of a block.
#[derive(Drop)]
pub struct Content(pub Vec<u8>);

impl Model for Content {
    ghost use Rattle.std.specs.Prelude.{ℕ, List};

    ghost Value = { List ℕ };

    ghost view = { λ c. c.0.items };
}

/// Home blocks with the contents that they get.
#[derive(Drop)]
pub struct Writes(pub Vec<(BlockNo, Content)>);

impl Model for Writes {
    ghost use Rattle.mq_blocks.specs.Machine.{Writes as Text};

    ghost Value = { Text };

    ghost view = { λ w. w.0.items };
}

impl Writes {
    pub fn as_slice(&self) -> &[(BlockNo, Content)]
        ensures { result.now ≡ self.now }
    {
        &self.0
    }
}

/// Home blocks.
#[derive(Drop)]
pub struct Blocks(pub Vec<BlockNo>);

impl Model for Blocks {
    ghost use Rattle.std.specs.Prelude.{ℕ, List};

    ghost Value = { List ℕ };

    ghost view = { λ b. b.0.items };
}

impl Blocks {
    pub fn as_slice(&self) -> &[BlockNo]
        ensures { result.now ≡ self.now }
    {
        &self.0
    }
}

/// A copy of the bytes.
pub fn copy_content(alloc: Global, content: &Content) -> Result<Content, OutOfMemory>
    ensures { IfOk result (λ c. c ≡ content.now) }
{
    Ok(Content(Vec::from_slice(alloc, &content.0)?))
}

/// Blocks with the same contents.
pub fn copy_blocks(
    alloc: Global,
    blocks: &[Option<Content>],
) -> Result<Vec<Option<Content>>, OutOfMemory>
    ensures { IfOk result (λ v. v.items ≡ blocks.now) }
{
    let mut copies = Vec::new(alloc);
    for block in blocks {
        let copy = match block {
            Some(content) => Some(copy_content(alloc, content)?),
            None => None,
        };
        copies.push(copy)?;
    }
    Ok(copies)
}
