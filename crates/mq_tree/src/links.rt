// How often slots name an inode: a directory once, and a file as often as its links say.
ghost use Rattle.std.specs.Prelude.{◌≡◌, ◌≢◌, ◌+◌, ◌*◌, ◌<◌, ◌^◌, ℕ, IfOk, MatchOption, Some, length, slice_index};
ghost use Rattle.std.specs.Bool.{MatchBool};
ghost use Rattle.mq_blocks.specs.Blocks.{zeros};
ghost use Rattle.mq_layout.specs.Inodes.{IsInode};
ghost use Rattle.mq_layout.specs.Places.{inodes_of};
ghost use Rattle.mq_layout.specs.Slots.{Entry};
ghost use Rattle.mq_tree.specs.Clean.{AreDirs, AreLinked, AreNamed, AreNamedOnce, ArePointers, IsTable};
ghost use Rattle.mq_tree.specs.Corrupt.{IsMiscounted, IsSharedDir};
ghost use Rattle.mq_tree.specs.Decoded.{count_of, entry_of, inodes_in, table_of, volume_in};
ghost use Rattle.mq_tree.specs.Least.{IsLeast};
ghost use Rattle.mq_tree.specs.Links.{links_to, names_among};
ghost use Rattle.mq_tree.specs.Parts.{AreDirBlocks};

use crate::file_tails::FILE;
use crate::pointers::block_count;
use crate::slots::slot_at;
use crate::table::DIRECTORY;
use mq_blocks::{Block, Geometry, OutOfMemory};
use mq_layout::{Inode, SLOTS_PER_BLOCK, inode_block};
use std::alloc::Global;

/// Counts the slots of a directory, each for the inode that it names.
fn count_slots(blocks: &[Option<Block>], zero: &Block, inode: &Inode, counts: &mut [u32])
    requires zero { zero.now ≡ zeros }
    requires form { IsInode inode.now }
    requires kind { inode.now.kind ≡ 2 }
    requires dir { AreDirBlocks blocks.now inode.now }
    requires inside { (k : ℕ) (e : Entry)
        → k < 15 * count_of inode.now
        → entry_of blocks.now inode.now k ≡ Some e
        → e.inode < length counts.old }
    requires few { (i : ℕ) → slice_index counts.old i + 15 * count_of inode.now < 2 ^ 32 }
    ensures size { length counts.new ≡ length counts.old }
    ensures counted { (i : ℕ)
        → i < length counts.old
        → slice_index counts.new i ≡ slice_index counts.old i + names_among i
        (table_of (15 * count_of inode.now) (entry_of blocks.now inode.now)) }
{
    for k in 0..SLOTS_PER_BLOCK * block_count(inode) {
        if let Some(link) = slot_at(blocks, zero, inode, k) {
            let named = link.inode as usize;
            counts[named] += 1;
        }
    }
}

/// How many slots name each inode.
pub fn count_links(
    alloc: Global,
    geometry: Geometry,
    blocks: &[Option<Block>],
    zero: &Block,
    inodes: &[Inode],
) -> Result<Vec<u32>, OutOfMemory>
    requires zero { zero.now ≡ zeros }
    requires inodes { inodes.now ≡ inodes_in geometry blocks.now }
    requires table { IsTable geometry blocks.now }
    requires dirs { AreDirs geometry blocks.now }
    requires named { AreNamed (volume_in geometry blocks.now) }
    requires pointers { ArePointers geometry blocks.now }
    ensures size { IfOk result (λ counts. length counts.items ≡ inodes_of geometry) }
    ensures counted { IfOk result (λ counts. (i : ℕ)
        → i < inodes_of geometry
        → slice_index counts.items i ≡ links_to (volume_in geometry blocks.now) i) }
{
    let mut counts = vec![in alloc; 0; inodes.len()]?;
    for (i, inode) in inodes.iter().enumerate() {
        if inode.kind == DIRECTORY {
            count_slots(blocks, zero, inode, &mut counts);
        }
    }
    Ok(counts)
}

/// Whether an inode that is a file has this many links.
fn has_links(inode: &Inode, count: u32) -> bool
    ensures { MatchBool result (inode.now.kind ≡ 1 → inode.now.links ≡ count)
        ((inode.now.kind ≡ 1) × (inode.now.links ≢ count)) }
{
    if inode.kind != FILE {
        return true;
    }
    u32::from(inode.links) == count
}

/// The least block that has the inode of a directory which two slots name.
pub fn shared_directory(
    geometry: Geometry,
    blocks: &[Option<Block>],
    inodes: &[Inode],
    counts: &[u32],
) -> Option<u32>
    requires inodes { inodes.now ≡ inodes_in geometry blocks.now }
    requires table { IsTable geometry blocks.now }
    requires pointers { ArePointers geometry blocks.now }
    requires size { length counts.now ≡ inodes_of geometry }
    requires counted { (i : ℕ)
        → i < inodes_of geometry
        → slice_index counts.now i ≡ links_to (volume_in geometry blocks.now) i }
    ensures { MatchOption result (AreNamedOnce (volume_in geometry blocks.now))
        (IsLeast (IsSharedDir geometry blocks.now)) }
{
    for (i, inode) in inodes.iter().enumerate() {
        if inode.kind == DIRECTORY && counts[i] > 1 {
            return Some(inode_block(geometry, i as u32).0);
        }
    }
    None
}

/// The least block that has a file whose links are not as many as the slots that name it.
pub fn bad_count(
    geometry: Geometry,
    blocks: &[Option<Block>],
    inodes: &[Inode],
    counts: &[u32],
) -> Option<u32>
    requires inodes { inodes.now ≡ inodes_in geometry blocks.now }
    requires table { IsTable geometry blocks.now }
    requires size { length counts.now ≡ inodes_of geometry }
    requires counted { (i : ℕ)
        → i < inodes_of geometry
        → slice_index counts.now i ≡ links_to (volume_in geometry blocks.now) i }
    ensures { MatchOption result (AreLinked geometry blocks.now)
        (IsLeast (IsMiscounted geometry blocks.now)) }
{
    for (i, inode) in inodes.iter().enumerate() {
        if !has_links(inode, counts[i]) {
            return Some(inode_block(geometry, i as u32).0);
        }
    }
    None
}
