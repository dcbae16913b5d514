// Inodes.
ghost use Rattle.std.specs.Prelude.{◌≡◌, ◌≤◌, ◌<◌, ◌+◌, ◌*◌, IsErrOf, IfErr, IfOk, ℕ, length, drop, slice_index};
ghost use Rattle.mq_blocks.specs.Descriptor.{list_bytes};
ghost use Rattle.mq_blocks.specs.Windows.{numbers, written};
ghost use Rattle.mq_layout.specs.Fields.{Finds, zero_bytes};
ghost use Rattle.mq_layout.specs.Inodes.{IsInode, ShowsInode, inode_at, inode_bytes, is_links, is_size, wrong_fields, wrong_inode};

use crate::places::FILE_LIMIT;
use crate::refusal::{LayoutCause, LayoutRefusal, check, check_no_pointers, check_zeros};
use mq_blocks::Block;
use mq_blocks::bytes::{put, u16_at, u32_at, u64_at};

/// The number of bytes of an inode.
const SIZE: usize = 128;

/// The fields of an inode.
#[derive(Clone, Copy, PartialEq, Eq)]
pub struct Inode {
    /// 0 for a free inode, 1 for a file, 2 for a directory.
    pub kind: u8,
    /// The number of slots that name it.
    pub links: u16,
    /// In bytes.
    pub size: u64,
    /// The first twelve blocks; 0 where there is none.
    pub direct: [u32; 12],
    /// The block with the pointers to the others, or 0 if there is none.
    pub indirect: u32,
}

/// The inode at a place of a block of the inode table. It is not tested whether unused pointers are
/// 0.
pub fn read_inode(block: &Block, at: u32) -> Result<Inode, LayoutRefusal>
    requires { at < 32 }
    ensures sound { IfOk result (ShowsInode block.now at) }
    ensures complete { (i : Inode) → ShowsInode block.now at i → result ≡ Ok i }
    ensures refused { IfErr result (λ e. wrong_inode block.now at ≡ Some e) }
    ensures exact { (e : LayoutRefusal) → wrong_inode block.now at ≡ Some e → IsErrOf result e }
{
    let bytes = block.bytes();
    let start = SIZE * at as usize;
    let inode = fields(bytes, start);
    check_fields(&inode, bytes, start)?;
    Ok(inode)
}

#[tactic(auto, unfolding(crate::specs::Inodes::inode_at))]
fn fields(block: &[u8], start: usize) -> Inode
    requires { start + 128 ≤ length block.now }
    ensures is { result ≡ inode_at start block.now }
    ensures bytes { (k : ℕ) → slice_index block.now k < 256 }
{
    Inode {
        kind: block[start],
        links: u16_at(block, start + 2),
        size: u64_at(block, start + 8),
        direct: pointers(block, start + 16),
        indirect: u32_at(block, start + 64),
    }
}

fn pointers(block: &[u8], start: usize) -> [u32; 12]
    requires { start + 48 ≤ length block.now }
    ensures { result ≡ numbers 12 (drop start block.now) }
{
    let mut pointers = [0; 12];
    for k in 0..12 {
        pointers[k] = u32_at(block, start + 4 * k);
    }
    pointers
}

fn is_right_links(inode: &Inode) -> bool
    ensures { result ≡ is_links inode.now }
{
    if inode.kind == 0 {
        return inode.links == 0;
    }
    1 <= inode.links && (inode.kind == 1 || inode.links == 1)
}

fn is_right_size(inode: &Inode) -> bool
    ensures { result ≡ is_size inode.now }
{
    if inode.kind == 0 {
        return inode.size == 0;
    }
    inode.size <= FILE_LIMIT && (inode.kind == 1 || inode.size % 4096 == 0)
}

#[tactic(auto, unfolding(crate::specs::Inodes::wrong_fields, crate::specs::Fields::first))]
fn check_fields(inode: &Inode, block: &[u8], start: usize) -> Result<(), LayoutRefusal>
    requires whole { length block.now ≡ 4096 }
    requires inside { start + 128 ≤ 4096 }
    ensures { Finds (wrong_fields inode.now start block.now) result }
{
    check(LayoutCause::Kind, start, inode.kind <= 2)?;
    check_zeros(block, start + 1, 1)?;
    check(LayoutCause::Links, start + 2, is_right_links(inode))?;
    check_zeros(block, start + 4, 4)?;
    check(LayoutCause::Size, start + 8, is_right_size(inode))?;
    if inode.kind == 0 {
        check_no_pointers(block, start + 16, 13)?;
    }
    check_zeros(block, start + 68, 60)
}

/// Writes an inode at a place of a block of the inode table.
pub fn write_inode(into: &mut Block, at: u32, inode: &Inode)
    requires at { at < 32 }
    requires form { IsInode inode.now }
    ensures whole { length into.new ≡ 4096 }
    ensures bytes { (k : ℕ) → slice_index into.new k < 256 }
    ensures is { into.new ≡ written into.old (128 * at) (inode_bytes inode.now) }
{
    put_inode(into.bytes_mut(), SIZE * at as usize, inode);
}

fn put_inode(block: &mut [u8], start: usize, inode: &Inode)
    requires inside { start + 128 ≤ length block.old }
    requires twelve { length inode.now.direct ≡ 12 }
    ensures bytes { (k : ℕ) → slice_index block.new k < 256 }
    ensures is { block.new ≡ written block.old start (inode_bytes inode.now) }
{
    put(block, start, &[inode.kind, 0]);
    put(block, start + 2, &inode.links.to_le_bytes());
    put(block, start + 4, &[0; 4]);
    put(block, start + 8, &inode.size.to_le_bytes());
    put_pointers(block, start + 16, &inode.direct);
    put(block, start + 64, &inode.indirect.to_le_bytes());
    put(block, start + 68, &[0; 60]);
}

fn put_pointers(block: &mut [u8], start: usize, pointers: &[u32; 12])
    requires { start + 48 ≤ length block.old }
    ensures { block.new ≡ written block.old start (list_bytes pointers.now) }
{
    for (k, pointer) in pointers.iter().enumerate() {
        put(block, start + 4 * k, &pointer.to_le_bytes());
    }
}
