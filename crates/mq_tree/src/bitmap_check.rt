// The marks of a mount's fifth phase: just the blocks and inodes that are used are marked.
ghost use Rattle.std.specs.Prelude.{◌≡◌, ◌≤◌, ◌<◌, ℕ, IfErr, OnOk, MatchOption, false, length, nat_eq, not, slice_index_or};
ghost use Rattle.mq_blocks.specs.Blocks.{zeros};
ghost use Rattle.mq_blocks.specs.Geometry.{homes_of, queues_of, zone_size};
ghost use Rattle.mq_layout.specs.Empty.{free_inode};
ghost use Rattle.mq_tree.specs.Clean.{AreMarked, ArePointers, IsTable};
ghost use Rattle.mq_tree.specs.Decoded.{inodes_in, volume_in};
ghost use Rattle.mq_tree.specs.Laid.{zone_block};
ghost use Rattle.mq_tree.specs.Marks.{AreRight, IsMarkCause};
ghost use Rattle.mq_tree.specs.Phases.{RefusesIn};
ghost use Rattle.mq_tree.specs.Volume.{is_taken};

use crate::corrupt::{CorruptCause, MountRefusal};
use crate::stored::{corrupt, stored_block};
use mq_blocks::{Block, Geometry, QueueNo};
use mq_layout::{Inode, bit, inode_bitmap, zone_bitmap};

/// The first cause in the bitmap of a zone: a bit that is missing, or else one that is too many.
fn zone_cause(geometry: Geometry, block: &Block, used: &[bool], zone: u32) -> Option<CorruptCause>
    requires zone { zone < queues_of geometry }
    requires size { length used.now ≡ homes_of geometry }
    ensures { let is_used = λ (k : ℕ). slice_index_or used.now (zone_block geometry zone k) false in
        MatchOption result (AreRight block.now is_used (zone_size geometry)) (IsMarkCause block.now is_used (zone_size geometry)) }
{
    let first = geometry.meta() + zone * geometry.zone();
    let mut cause = None;
    for k in 0..geometry.zone() {
        let is_used = used[(first + k) as usize];
        if bit(block, k) != is_used {
            if is_used {
                return Some(CorruptCause::Unmarked);
            }
            cause = Some(CorruptCause::Unreached);
        }
    }
    cause
}

/// The first cause in the bitmap of the inodes, likewise.
fn inode_cause(block: &Block, inodes: &[Inode]) -> Option<CorruptCause>
    requires { length inodes.now ≤ 32768 }
    ensures { let is_used = λ (k : ℕ). not (nat_eq (slice_index_or inodes.now k free_inode).kind 0) in
        MatchOption result (AreRight block.now is_used (length inodes.now)) (IsMarkCause block.now is_used (length inodes.now)) }
{
    let mut cause = None;
    for (i, inode) in inodes.iter().enumerate() {
        let is_used = inode.kind != 0;
        if bit(block, i as u32) != is_used {
            if is_used {
                return Some(CorruptCause::Unmarked);
            }
            cause = Some(CorruptCause::Unreached);
        }
    }
    cause
}

/// Refuses for the least bitmap that is not as it should be.
pub fn check_marks(
    geometry: Geometry,
    blocks: &[Option<Block>],
    zero: &Block,
    inodes: &[Inode],
    used: &[bool],
) -> Result<(), MountRefusal>
    requires zero { zero.now ≡ zeros }
    requires inodes { inodes.now ≡ inodes_in geometry blocks.now }
    requires table { IsTable geometry blocks.now }
    requires size { length used.now ≡ homes_of geometry }
    requires used { (b : ℕ) → slice_index_or used.now b false ≡ is_taken (volume_in geometry blocks.now) b }
    requires pointers { ArePointers geometry blocks.now }
    ensures ok { OnOk result (AreMarked geometry blocks.now) }
    ensures cause { IfErr result (RefusesIn geometry blocks.now 5) }
{
    for zone in 0..geometry.queues() {
        let b = zone_bitmap(geometry, QueueNo(zone)).0;
        if let Some(cause) = zone_cause(geometry, stored_block(blocks, zero, b), used, zone) {
            return Err(corrupt(cause, b));
        }
    }
    let b = inode_bitmap(geometry).0;
    match inode_cause(stored_block(blocks, zero, b), inodes) {
        Some(cause) => Err(corrupt(cause, b)),
        None => Ok(()),
    }
}
