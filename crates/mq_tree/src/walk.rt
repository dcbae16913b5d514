// A walk over the paths of a volume: which inodes they reach.
ghost use Rattle.std.specs.Prelude.{◌≡◌, ◌+◌, ◌<◌, IfOk, OnOk, length};
ghost use Rattle.mq_blocks.specs.Blocks.{zeros};
ghost use Rattle.mq_layout.specs.Places.{inodes_of};
ghost use Rattle.mq_tree.specs.Clean.{AreDirs, AreNamed, AreNamedOnce, AreOnce, ArePointers, IsTable};
ghost use Rattle.mq_tree.specs.Decoded.{inodes_in, volume_in};
ghost use Rattle.mq_tree.specs.Walks.{Finds, IsWholeWalk, Starts, Walked};

use crate::pointers::block_count;
use crate::slots::slot_at;
use crate::table::DIRECTORY;
use mq_blocks::{Block, Geometry, OutOfMemory};
use mq_layout::{Inode, SLOTS_PER_BLOCK};
use std::alloc::Global;

/// The inodes that a walk found, in the order in which it found them.
#[derive(Drop)]
struct Walk {
    seen: Vec<bool>,
    order: Vec<u32>,
}

impl Walk {
    /// A walk that found the root.
    fn new(alloc: Global, count: usize) -> Result<Walk, OutOfMemory>
        requires { 0 < count }
        ensures { IfOk result (λ walk. Starts count walk.seen.items walk.order.items) }
    {
        let mut seen = vec![in alloc; false; count]?;
        let mut order = Vec::new(alloc);
        seen[0] = true;
        order.push(0)?;
        Ok(Walk { seen, order })
    }

    /// Adds an inode if it was not seen before.
    fn find(&mut self, inode: u32) -> Result<(), OutOfMemory>
        requires { inode < length self.old.seen.items }
        ensures { OnOk result (Finds inode
            self.old.seen.items self.old.order.items self.new.seen.items self.new.order.items) }
    {
        if !self.seen[inode as usize] {
            self.order.push(inode)?;
            self.seen[inode as usize] = true;
        }
        Ok(())
    }
}

/// Walks over the slots of one directory.
fn visit(
    geometry: Geometry,
    blocks: &[Option<Block>],
    zero: &Block,
    inodes: &[Inode],
    walk: &mut Walk,
    done: usize,
) -> Result<(), OutOfMemory>
    requires zero { zero.now ≡ zeros }
    requires inodes { inodes.now ≡ inodes_in geometry blocks.now }
    requires table { IsTable geometry blocks.now }
    requires dirs { AreDirs geometry blocks.now }
    requires named { AreNamed (volume_in geometry blocks.now) }
    requires names { AreOnce (volume_in geometry blocks.now) }
    requires low { done < length walk.old.order.items }
    requires walk { Walked (volume_in geometry blocks.now)
        (inodes_of geometry) walk.old.seen.items walk.old.order.items done 0 }
    ensures ok { OnOk result (Walked (volume_in geometry blocks.now)
        (inodes_of geometry) walk.new.seen.items walk.new.order.items (done + 1) 0) }
    ensures low { OnOk result (done < length walk.new.order.items) }
{
    let d = walk.order[done] as usize;
    let inode = &inodes[d];
    if inode.kind != DIRECTORY {
        return Ok(());
    }
    for k in 0..SLOTS_PER_BLOCK * block_count(inode) {
        if let Some(link) = slot_at(blocks, zero, inode, k) {
            walk.find(link.inode)?;
        }
    }
    Ok(())
}

/// Which inodes paths lead to.
pub fn walk_all(
    alloc: Global,
    geometry: Geometry,
    blocks: &[Option<Block>],
    zero: &Block,
    inodes: &[Inode],
) -> Result<Vec<bool>, OutOfMemory>
    requires zero { zero.now ≡ zeros }
    requires inodes { inodes.now ≡ inodes_in geometry blocks.now }
    requires table { IsTable geometry blocks.now }
    requires dirs { AreDirs geometry blocks.now }
    requires named { AreNamed (volume_in geometry blocks.now) }
    requires names { AreOnce (volume_in geometry blocks.now) }
    requires pointers { ArePointers geometry blocks.now }
    requires once { AreNamedOnce (volume_in geometry blocks.now) }
    ensures size { IfOk result (λ seen. length seen.items ≡ inodes_of geometry) }
    ensures ok { IfOk result (λ seen. IsWholeWalk (volume_in geometry blocks.now) seen.items) }
{
    let mut walk = Walk::new(alloc, inodes.len())?;
    let mut done = 0;
    while done < walk.order.len() {
        visit(geometry, blocks, zero, inodes, &mut walk, done)?;
        done += 1;
    }
    Ok(walk.seen)
}
