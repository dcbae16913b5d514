// Files that requests change.
ghost use Rattle.std.specs.Prelude.{◌≡◌, ℕ, List, IfErr, IfOk, MatchResult, ⊤};
ghost use Rattle.mq_exec.specs.Plans.{IsFound, on_file};
ghost use Rattle.mq_inodes.specs.MissingPages.{HasVolume, MissingOf, OfEach};
ghost use Rattle.mq_inodes.specs.Pages.{IsHeld, pages_of};
ghost use Rattle.mq_inodes.specs.Walks.{LeadsPast};
ghost use Rattle.mq_layout.specs.Places.{inode_block as inode_block_of};
ghost use Rattle.mq_tree.specs.Requests.{Verdict, refused, target as target_of};
ghost use Rattle.mq_tree.specs.Volume.{way};

use mq_inodes::{DIRECTORY, Missing, Target, Working};
use mq_layout::Inode;
use mq_tree::{Fault, Path};
use std::alloc::Global;

/// A file, and the directory in which its name stands.
#[derive(Clone, Copy)]
pub struct Found {
    pub directory: u32,
    pub number: u32,
    pub inode: Inode,
}

/// The file that a path names, or why a request that changes a file is refused there.
pub fn find_file(
    alloc: Global,
    working: &Working,
    path: &Path,
) -> Result<Result<Found, Fault>, Missing>
    requires { HasVolume working.now }
    ensures ok { IfOk result (λ found. OfEach working.now
        (λ v. MatchResult found (IsFound v path.now) (λ fault. (act : ℕ → List ℕ → ℕ → List ℕ → Verdict)
        → on_file v act (target_of v (way path.now)) ≡ refused fault))) }
    ensures held { IfOk result (λ found. MatchResult found
        (λ f. IsHeld (pages_of working.now) (inode_block_of working.now.geometry f.number)) (λ _. ⊤)) }
    ensures lack { IfErr result (MissingOf working.now
        (λ v b. LeadsPast working.now.geometry v (way path.now) b)) }
{
    let (directory, number) = match working.target(alloc, path)? {
        Target::Root => return Ok(Err(Fault::IsDir)),
        Target::Lost(fault) => return Ok(Err(fault)),
        Target::In { found: None, .. } => return Ok(Err(Fault::NotFound)),
        Target::In {
            directory,
            found: Some(number),
        } => (directory, number),
    };
    let inode = working.inode(alloc, number)?;
    if inode.kind == DIRECTORY {
        return Ok(Err(Fault::IsDir));
    }
    Ok(Ok(Found {
        directory,
        number,
        inode,
    }))
}
