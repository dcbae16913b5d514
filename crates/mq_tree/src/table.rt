// The first phase of a mount: superblock, bitmaps and inode table are in their forms. The checks come in the
// order of the blocks, so that the first one to fail has the least block.
ghost use Rattle.std.specs.Prelude.{◌≡◌, ◌≢◌, ◌≤◌, ◌<◌, ◌%◌, ℕ, IfErr, IfOk, OnOk, MatchOption, slice_index};
ghost use Rattle.std.specs.Bool.{MatchBool};
ghost use Rattle.mq_blocks.specs.Blocks.{zeros};
ghost use Rattle.mq_blocks.specs.Geometry.{meta_of};
ghost use Rattle.mq_layout.specs.Bits.{bit_of};
ghost use Rattle.mq_layout.specs.Places.{inode_bitmap as inode_bitmap_of, inode_block as inode_block_of};
ghost use Rattle.mq_layout.specs.Places.{inodes_of, table_first as table_first_of};
ghost use Rattle.mq_tree.specs.Clean.{IsTable, NoneFrom};
ghost use Rattle.mq_tree.specs.Decoded.{inodes_in, table_of, the_inode};
ghost use Rattle.mq_tree.specs.Phases.{RefusesIn};
ghost use Rattle.mq_tree.specs.Tables.{IsTableBefore};

use crate::corrupt::{CorruptCause, MountRefusal};
use crate::stored::{corrupt, stored_block};
use mq_blocks::{Block, Geometry, QueueNo};
use mq_layout::{
    INODES_PER_BLOCK, Inode, bit, inode_bitmap, inode_block, inode_place, inodes, read_inode,
    read_super, table_first, zone_bitmap,
};
use std::alloc::Global;

/// The kind of a directory.
pub const DIRECTORY: u8 = 2;

/// The first bit of a bitmap that is set, from this one on.
fn first_set(block: &Block, from: u32) -> Option<u32>
    ensures { MatchOption result (NoneFrom block.now from) (λ k. (from ≤ k)
        × (k < 32768)
        × (bit_of block.now k ≡ 1)) }
{
    for k in from..32768 {
        if bit(block, k) {
            return Some(k);
        }
    }
    None
}

fn check_super(
    geometry: Geometry,
    blocks: &[Option<Block>],
    zero: &Block,
) -> Result<(), MountRefusal>
    requires { zero.now ≡ zeros }
    ensures ok { IfOk result (λ _. IsTableBefore geometry blocks.now 1) }
    ensures cause { IfErr result (RefusesIn geometry blocks.now 1) }
{
    match read_super(geometry, stored_block(blocks, zero, 0)) {
        Ok(()) => Ok(()),
        Err(_) => Err(corrupt(CorruptCause::Layout, 0)),
    }
}

fn check_zone_bits(
    geometry: Geometry,
    blocks: &[Option<Block>],
    zero: &Block,
) -> Result<(), MountRefusal>
    requires zero { zero.now ≡ zeros }
    requires before { IsTableBefore geometry blocks.now 1 }
    ensures ok { IfOk result (λ _. IsTableBefore geometry blocks.now (inode_bitmap_of geometry)) }
    ensures cause { IfErr result (RefusesIn geometry blocks.now 1) }
{
    for zone in 0..geometry.queues() {
        let b = zone_bitmap(geometry, QueueNo(zone)).0;
        if first_set(stored_block(blocks, zero, b), geometry.zone()).is_some() {
            return Err(corrupt(CorruptCause::Layout, b));
        }
    }
    Ok(())
}

fn check_inode_bits(
    geometry: Geometry,
    blocks: &[Option<Block>],
    zero: &Block,
) -> Result<(), MountRefusal>
    requires zero { zero.now ≡ zeros }
    requires before { IsTableBefore geometry blocks.now (inode_bitmap_of geometry) }
    ensures ok { IfOk result (λ _. IsTableBefore geometry blocks.now (table_first_of geometry)) }
    ensures cause { IfErr result (RefusesIn geometry blocks.now 1) }
{
    let b = inode_bitmap(geometry).0;
    if first_set(stored_block(blocks, zero, b), inodes(geometry)).is_some() {
        return Err(corrupt(CorruptCause::Layout, b));
    }
    Ok(())
}

/// Reads inodes, where `found` has those before. Those of the table's first block are read before it is known
/// whether inode 0 is a directory.
fn read_inodes(
    geometry: Geometry,
    blocks: &[Option<Block>],
    zero: &Block,
    start: u32,
    end: u32,
    found: &mut Vec<Inode>,
) -> Result<(), MountRefusal>
    requires zero { zero.now ≡ zeros }
    requires whole { start % 32 ≡ 0 }
    requires some { start ≤ end }
    requires end { end ≤ inodes_of geometry }
    requires before { IsTableBefore geometry blocks.now (inode_block_of geometry start) }
    requires root { 32 < end → (the_inode geometry blocks.now 0).kind ≡ 2 }
    requires found { found.old.items ≡ table_of start (the_inode geometry blocks.now) }
    ensures found { IfOk result (λ _. found.new.items ≡ table_of end (the_inode geometry blocks.now)) }
    ensures before { IfOk result (λ _. IsTableBefore geometry blocks.now (inode_block_of geometry end)) }
    ensures cause { IfErr result (RefusesIn geometry blocks.now 1) }
{
    for i in start..end {
        let b = inode_block(geometry, i).0;
        match read_inode(stored_block(blocks, zero, b), inode_place(i)) {
            Ok(inode) => found.push(inode)?,
            Err(_) => return Err(corrupt(CorruptCause::Layout, b)),
        }
    }
    Ok(())
}

/// Whether all bytes of a block are 0.
fn is_zero(block: &Block) -> bool
    ensures { MatchBool result ((k : ℕ) → slice_index block.now k ≡ 0) ((k : ℕ)
        × (slice_index block.now k ≢ 0)) }
{
    for byte in block.bytes() {
        if *byte != 0 {
            return false;
        }
    }
    true
}

/// Checks that the blocks of the inode table after the first 1,024 are zeros.
fn check_rest(
    geometry: Geometry,
    blocks: &[Option<Block>],
    zero: &Block,
) -> Result<(), MountRefusal>
    requires zero { zero.now ≡ zeros }
    requires before { IsTableBefore geometry blocks.now (inode_block_of geometry (inodes_of geometry)) }
    requires root { (the_inode geometry blocks.now 0).kind ≡ 2 }
    ensures ok { IfOk result (λ _. IsTableBefore geometry blocks.now (meta_of geometry)) }
    ensures cause { IfErr result (RefusesIn geometry blocks.now 1) }
{
    for b in table_first(geometry).0 + 1024..geometry.meta() {
        if !is_zero(stored_block(blocks, zero, b)) {
            return Err(corrupt(CorruptCause::Layout, b));
        }
    }
    Ok(())
}

/// Checks that inode 0 is a directory, where the first block of the table was read.
fn check_root(
    geometry: Geometry,
    blocks: &[Option<Block>],
    inodes: &[Inode],
) -> Result<(), MountRefusal>
    requires inodes { inodes.now ≡ table_of 32 (the_inode geometry blocks.now) }
    requires before { IsTableBefore geometry blocks.now (inode_block_of geometry 32) }
    ensures ok { IfOk result (λ _. (the_inode geometry blocks.now 0).kind ≡ 2) }
    ensures cause { IfErr result (RefusesIn geometry blocks.now 1) }
{
    if inodes[0].kind == DIRECTORY {
        return Ok(());
    }
    Err(corrupt(CorruptCause::Kind, inode_block(geometry, 0).0))
}

/// All inodes, if superblock, bitmaps and inode table have the right form and inode 0 is a directory.
pub fn read_table(
    alloc: Global,
    geometry: Geometry,
    blocks: &[Option<Block>],
    zero: &Block,
) -> Result<Vec<Inode>, MountRefusal>
    requires { zero.now ≡ zeros }
    ensures ok { IfOk result (λ found. found.items ≡ inodes_in geometry blocks.now) }
    ensures clean { OnOk result (IsTable geometry blocks.now) }
    ensures cause { IfErr result (RefusesIn geometry blocks.now 1) }
{
    check_super(geometry, blocks, zero)?;
    check_zone_bits(geometry, blocks, zero)?;
    check_inode_bits(geometry, blocks, zero)?;
    let count = inodes(geometry);
    let mut found = Vec::with_capacity(alloc, count as usize)?;
    read_inodes(geometry, blocks, zero, 0, INODES_PER_BLOCK, &mut found)?;
    check_root(geometry, blocks, &found)?;
    read_inodes(geometry, blocks, zero, INODES_PER_BLOCK, count, &mut found)?;
    check_rest(geometry, blocks, zero)?;
    Ok(found)
}
