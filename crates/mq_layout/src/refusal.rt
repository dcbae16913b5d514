// Why bytes are not in their form.
ghost use Rattle.std.specs.Prelude.{◌≡◌, ◌≤◌, ◌<◌, ◌+◌, ◌*◌, length};
ghost use Rattle.mq_layout.specs.Fields.{Finds, field, nonzero, refused as refusal_of};

use mq_blocks::bytes::u32_at;

/// What is wrong with a field.
#[derive(Clone, Copy, PartialEq, Eq)]
pub enum LayoutCause {
    /// The first eight bytes of the superblock are not the magic number.
    Magic,
    Version,
    /// The superblock is that of another geometry.
    Geometry,
    /// An inode is neither free nor a file nor a directory.
    Kind,
    /// A file has no link, a directory not one, or a free inode has links.
    Links,
    /// A size is above the limit, a directory's is not a multiple of the block size, or a free
    /// inode's is not 0.
    Size,
    /// A byte or a pointer that must be 0 is not.
    Zero,
    /// The byte that says whether a slot is used has neither value.
    Used,
    /// The name in a slot has no bytes.
    Length,
    /// The name in a slot is not a good name.
    Name,
}

/// The first field that is wrong, in order of offset, and the offset of its first byte in the block.
#[derive(Clone, Copy, PartialEq, Eq)]
pub struct LayoutRefusal {
    pub cause: LayoutCause,
    pub offset: u32,
}

/// The refusal of the field at this offset.
pub fn refused(cause: LayoutCause, offset: usize) -> LayoutRefusal
    requires { offset < 4096 }
    ensures { result ≡ refusal_of cause offset }
{
    LayoutRefusal {
        cause,
        offset: offset as u32,
    }
}

/// Refuses the field at this offset unless it is right.
pub fn check(cause: LayoutCause, offset: usize, right: bool) -> Result<(), LayoutRefusal>
    requires { offset < 4096 }
    ensures { Finds (field cause offset right) result }
{
    if right {
        Ok(())
    } else {
        Err(refused(cause, offset))
    }
}

/// Refuses the first of `count` bytes from `from` on that is not 0.
pub fn check_zeros(block: &[u8], from: usize, count: usize) -> Result<(), LayoutRefusal>
    requires whole { length block.now ≡ 4096 }
    requires inside { from + count ≤ 4096 }
    ensures { Finds (nonzero 1 count from block.now) result }
{
    for k in 0..count {
        if block[from + k] != 0 {
            return Err(refused(LayoutCause::Zero, from + k));
        }
    }
    Ok(())
}

/// Refuses the first of `count` pointers from `from` on that is not 0.
pub fn check_no_pointers(block: &[u8], from: usize, count: usize) -> Result<(), LayoutRefusal>
    requires whole { length block.now ≡ 4096 }
    requires inside { from + 4 * count ≤ 4096 }
    ensures { Finds (nonzero 4 count from block.now) result }
{
    for k in 0..count {
        let at = from + 4 * k;
        if u32_at(block, at) != 0 {
            return Err(refused(LayoutCause::Zero, at));
        }
    }
    Ok(())
}
