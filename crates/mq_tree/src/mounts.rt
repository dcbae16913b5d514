// A mount: the tree of home blocks, or the first finding of its phases.
ghost use Rattle.std.specs.Prelude.{◌≡◌, ◌≢◌, IfErr, IfOk};
ghost use Rattle.mq_tree.specs.Corrupt.{Refuses};
ghost use Rattle.mq_tree.specs.Empty.{ArePages};
ghost use Rattle.mq_tree.specs.Laid.{IsLaid, IsTreeOf, map_of};
ghost use Rattle.mq_tree.specs.ListText.{list_text};
ghost use Rattle.mq_tree.specs.Listings.{IsListing};
ghost use Rattle.mq_tree.specs.Phases.{RefusesByPhase, RefusesFirst, refusal_of};
ghost use Rattle.mq_tree.specs.Sound.{AreBytes};
ghost use Rattle.mq_tree.specs.Trees.{IsAlike};
ghost use Rattle.mq_tree.specs.Volume.{Things, Volume, tree};

use crate::corrupt::{MountRefusal, PhaseRefusal};
use crate::phases::read_volume;
use crate::stored::corrupt;
use crate::tree::Tree;
use mq_blocks::{Block, BlockNo, Geometry};
use std::alloc::Global;

/// Serves proofs alone: a block's type says nothing of its bytes outside `mq_blocks`, so only a slice that
/// is passed says of each of them that it is one.
fn are_bytes(bytes: &[u8])
    ensures { AreBytes bytes.now }
{
    let _bytes = bytes;
}

/// Serves proofs alone: no form says of all items of a slice what a call says of one, so each stored block
/// is passed once.
pub fn are_pages(blocks: &[Option<Block>])
    ensures { ArePages blocks.now }
{
    for block in blocks {
        match block {
            Some(block) => are_bytes(block.bytes()),
            None => {}
        }
    }
}

/// The tree of the home blocks of a drive, of which an absent one is zeros, as are those past the last
/// item; or what the first of the six phases that finds something finds first.
pub fn mount_by_phases(
    alloc: Global,
    geometry: Geometry,
    blocks: &[Option<Block>],
) -> Result<Tree, PhaseRefusal>
    ensures tree { IfOk result (λ t. IsTreeOf geometry (map_of geometry blocks.now) (tree t)) }
    ensures alike { IfOk result (λ t. (v : Volume)
        → IsLaid geometry (map_of geometry blocks.now) v
        → IsAlike t v) }
    ensures listing { IfOk result (λ t. IsListing (tree t) (list_text t)) }
    ensures cause { IfErr result (RefusesByPhase geometry blocks.now) }
    ensures none { IfErr result (λ e. e ≢ PhaseRefusal.OutOfMemory
        → (t : Things)
        → IsTreeOf geometry (map_of geometry blocks.now) t
        → ⊥) }
{
    are_pages(blocks);
    let zero = Block::zeroed(alloc)?;
    let contents = read_volume(alloc, geometry, blocks, &zero)?;
    Ok(Tree::new(contents))
}

/// A refusal without its phase.
fn without_phase(refusal: PhaseRefusal) -> MountRefusal
    ensures { result ≡ refusal_of refusal }
{
    match refusal {
        PhaseRefusal::Found {
            cause,
            block: BlockNo(b),
            ..
        } => corrupt(cause, b),
        PhaseRefusal::OutOfMemory => MountRefusal::OutOfMemory,
    }
}

/// The tree of the home blocks of a drive, of which an absent one is zeros, as are those past the last
/// item.
pub fn mount(
    alloc: Global,
    geometry: Geometry,
    blocks: &[Option<Block>],
) -> Result<Tree, MountRefusal>
    ensures tree { IfOk result (λ t. IsTreeOf geometry (map_of geometry blocks.now) (tree t)) }
    ensures alike { IfOk result (λ t. (v : Volume)
        → IsLaid geometry (map_of geometry blocks.now) v
        → IsAlike t v) }
    ensures listing { IfOk result (λ t. IsListing (tree t) (list_text t)) }
    ensures cause { IfErr result (Refuses geometry blocks.now) }
    ensures first { IfErr result (RefusesFirst geometry blocks.now) }
    ensures none { IfErr result (λ e. e ≢ MountRefusal.OutOfMemory
        → (t : Things)
        → IsTreeOf geometry (map_of geometry blocks.now) t
        → ⊥) }
{
    match mount_by_phases(alloc, geometry, blocks) {
        Ok(tree) => Ok(tree),
        Err(refusal) => Err(without_phase(refusal)),
    }
}
