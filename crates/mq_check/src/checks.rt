// The check of home blocks.
ghost use Rattle.std.specs.Prelude.{◌≡◌, ℕ, IfErr, IfOk};
ghost use Rattle.mq_check.specs.Verdicts.{Judges, Repeats};
ghost use Rattle.mq_tree.specs.Laid.{IsLaid, IsTreeOf, map_of};
ghost use Rattle.mq_tree.specs.Phases.{IsFirst};
ghost use Rattle.mq_tree.specs.Trees.{IsAlike};
ghost use Rattle.mq_tree.specs.Volume.{Volume, tree as things_of};
ghost use Rattle.mq_tree.specs.declared.corrupt.CorruptCause.{CorruptCause};

use crate::marks::marked_blocks;
use crate::verdict::Verdict;
use mq_blocks::{Block, BlockNo, Geometry, OutOfMemory};
use mq_tree::{PhaseRefusal, Tree, are_pages, mount_by_phases};
use std::alloc::Global;

/// The verdict on home blocks that have this tree.
fn judge_tree(geometry: Geometry, blocks: &[Option<Block>], tree: &Tree) -> Verdict
    requires tree { IsTreeOf geometry (map_of geometry blocks.now) (things_of tree.now) }
    requires alike { (v : Volume) → IsLaid geometry (map_of geometry blocks.now) v → IsAlike tree.now v }
    ensures { Judges geometry blocks.now result }
{
    let counts = tree.counts();
    Verdict::Sound {
        dirs: counts.directories as u32 + 1,
        files: counts.files as u32,
        blocks: marked_blocks(geometry, blocks),
    }
}

/// The verdict on home blocks whose mount is refused.
fn judge_refusal(refusal: PhaseRefusal) -> Result<Verdict, OutOfMemory>
    ensures found { IfOk result (Repeats refusal) }
    ensures memory { IfErr result (λ _. refusal ≡ PhaseRefusal.OutOfMemory) }
{
    match refusal {
        PhaseRefusal::Found {
            phase,
            cause,
            block: BlockNo(b),
        } => Ok(Verdict::Unsound {
            phase,
            cause,
            block: BlockNo(b),
        }),
        PhaseRefusal::OutOfMemory => Err(OutOfMemory),
    }
}

/// Whether the home blocks of a drive have a tree, and how much it has; or what the first of the six phases of a mount
/// that finds something finds first. Of the blocks an absent one is zeros, as are those past the last item.
pub fn check(
    alloc: Global,
    geometry: Geometry,
    blocks: &[Option<Block>],
) -> Result<Verdict, OutOfMemory>
    ensures verdict { IfOk result (Judges geometry blocks.now) }
    ensures first { (phase : ℕ) (cause : CorruptCause) (b : ℕ)
        → IsFirst geometry blocks.now phase cause b
        → IfOk result (λ v. v ≡ Verdict.Unsound phase cause b) }
{
    are_pages(blocks);
    match mount_by_phases(alloc, geometry, blocks) {
        Ok(tree) => Ok(judge_tree(geometry, blocks, &tree)),
        Err(refusal) => judge_refusal(refusal),
    }
}
