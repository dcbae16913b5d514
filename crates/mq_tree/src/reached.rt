// The fifth phase of a mount: just what is used is marked, and a path leads to each used inode.
ghost use Rattle.std.specs.Prelude.{◌≡◌, ℕ, IfErr, OnOk, false, length, slice_index_or};
ghost use Rattle.mq_blocks.specs.Blocks.{zeros};
ghost use Rattle.mq_blocks.specs.Geometry.{homes_of};
ghost use Rattle.mq_layout.specs.Places.{inodes_of};
ghost use Rattle.mq_tree.specs.Clean.{AreMarked, ArePointers, AreReached, IsTable};
ghost use Rattle.mq_tree.specs.Decoded.{inodes_in, volume_in};
ghost use Rattle.mq_tree.specs.Phases.{RefusesIn};
ghost use Rattle.mq_tree.specs.Volume.{is_taken};
ghost use Rattle.mq_tree.specs.Walks.{IsWholeWalk};

use crate::bitmap_check::check_marks;
use crate::corrupt::{CorruptCause, MountRefusal};
use crate::stored::corrupt;
use mq_blocks::{Block, Geometry};
use mq_layout::{Inode, inode_block};

/// Refuses for the first used inode that no path reaches, where all marks are right.
fn check_reached(
    geometry: Geometry,
    blocks: &[Option<Block>],
    inodes: &[Inode],
    seen: &[bool],
) -> Result<(), MountRefusal>
    requires inodes { inodes.now ≡ inodes_in geometry blocks.now }
    requires table { IsTable geometry blocks.now }
    requires size { length seen.now ≡ inodes_of geometry }
    requires walk { IsWholeWalk (volume_in geometry blocks.now) seen.now }
    requires marked { AreMarked geometry blocks.now }
    ensures ok { OnOk result (AreReached (volume_in geometry blocks.now)) }
    ensures cause { IfErr result (RefusesIn geometry blocks.now 5) }
{
    for (i, inode) in inodes.iter().enumerate() {
        if inode.kind != 0 && !seen[i] {
            return Err(corrupt(CorruptCause::Unreached, inode_block(geometry, i as u32).0));
        }
    }
    Ok(())
}

/// Refuses for the first bitmap that is not as it should be, or else for the first inode that no path
/// reaches. `used` says of each block whether it is used, and `seen` of each inode whether a path leads to
/// it.
pub fn check_marks_and_paths(
    geometry: Geometry,
    blocks: &[Option<Block>],
    zero: &Block,
    inodes: &[Inode],
    used: &[bool],
    seen: &[bool],
) -> Result<(), MountRefusal>
    requires zero { zero.now ≡ zeros }
    requires inodes { inodes.now ≡ inodes_in geometry blocks.now }
    requires table { IsTable geometry blocks.now }
    requires pointers { ArePointers geometry blocks.now }
    requires used_size { length used.now ≡ homes_of geometry }
    requires used { (b : ℕ) → slice_index_or used.now b false ≡ is_taken (volume_in geometry blocks.now) b }
    requires seen_size { length seen.now ≡ inodes_of geometry }
    requires walk { IsWholeWalk (volume_in geometry blocks.now) seen.now }
    ensures marked { OnOk result (AreMarked geometry blocks.now) }
    ensures reached { OnOk result (AreReached (volume_in geometry blocks.now)) }
    ensures cause { IfErr result (RefusesIn geometry blocks.now 5) }
{
    check_marks(geometry, blocks, zero, inodes, used)?;
    check_reached(geometry, blocks, inodes, seen)
}
