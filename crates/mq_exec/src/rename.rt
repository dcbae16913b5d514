// Files and directories that move.
ghost use Rattle.std.specs.Prelude.{◌≡◌, ◌<◌, ◌≤◌, ℕ, length, true, IfErr, IfOk, MatchResult, OnOk, ⊤};
ghost use Rattle.std.specs.List.{list_all};
ghost use Rattle.mq_blocks.specs.Geometry.{queues_of};
ghost use Rattle.mq_blocks.specs.declared.geometry.Geometry.{Geometry};
ghost use Rattle.mq_exec.specs.Plans.{ComesTo, HoldsRename, IsRefused, IsSource, PlansRename, is_full as is_full_of, move_needs, moved_entry};
ghost use Rattle.mq_inodes.specs.Dirs.{AreDirsAt, slots_at};
ghost use Rattle.mq_inodes.specs.Edits.{Becomes, IsOver};
ghost use Rattle.mq_inodes.specs.Fits.{Agrees};
ghost use Rattle.mq_inodes.specs.MissingPages.{HasVolume, MissingOf, OfEach};
ghost use Rattle.mq_inodes.specs.Pages.{pages_of};
ghost use Rattle.mq_inodes.specs.Walks.{LeadsPast, last_of};
ghost use Rattle.mq_layout.specs.Names.{is_name};
ghost use Rattle.mq_tree.specs.Looks.{LooksAt};
ghost use Rattle.mq_tree.specs.Requests.{is_below as is_below_of, linked, refused, rename as rename_of, target as target_of, unlinked};
ghost use Rattle.mq_tree.specs.Volume.{Volume, way};
ghost use Rattle.mq_tree.specs.declared.request.Request.TheVariants.{Rename};

use mq_blocks::{BlockNo, OutOfMemory, QueueNo};
use mq_inodes::{Missing, Opened, Target, Working};
use mq_tree::{Fault, Path, Reply};
use std::alloc::Global;

/// The directory that loses a name, the one that gets a name, the inode under both, and the blocks that the
/// new name takes.
#[derive(Drop)]
pub struct Renaming {
    pub source: Opened,
    pub directory: Opened,
    pub inode: u32,
    pub picks: Vec<BlockNo>,
}

/// Whether the first path is a proper prefix of the second.
fn is_below(path: &Path, below: &Path) -> bool
    ensures { result ≡ is_below_of path.now below.now }
{
    if below.0.len() <= path.0.len() {
        return false;
    }
    for k in 0..path.0.len() {
        if path.0[k].0 != below.0[k].0 {
            return false;
        }
    }
    true
}

/// What is at a path, with its directory, or why it can't be moved.
fn plan_source(
    alloc: Global,
    working: &Working,
    from: &Path,
    to: &Path,
) -> Result<Result<(u32, u32), Fault>, Missing>
    requires { HasVolume working.now }
    ensures ok { IfOk result (λ found. OfEach working.now
        (λ v. MatchResult found (IsSource v from.now to.now) (λ fault. (g : Geometry) (q : ℕ)
        → rename_of g q v from.now to.now (target_of v (way from.now)) ≡ refused fault))) }
    ensures lack { IfErr result (MissingOf working.now
        (λ v b. LeadsPast working.now.geometry v (way from.now) b)) }
{
    let (d, i) = match working.target(alloc, from)? {
        Target::Root => return Ok(Err(Fault::Subtree)),
        Target::Lost(fault) => return Ok(Err(fault)),
        Target::In { found: None, .. } => return Ok(Err(Fault::NotFound)),
        Target::In {
            directory,
            found: Some(i),
        } => (directory, i),
    };
    if is_below(from, to) {
        return Ok(Err(Fault::Subtree));
    }
    Ok(Ok((d, i)))
}

/// The number of blocks that one more name takes in `into`, once the old name is gone from `from`.
fn move_need(working: &Working, from: u32, into: u32, blocks: &[BlockNo]) -> u32
    requires held { AreDirsAt (pages_of working.now) blocks.now }
    requires few { length blocks.now ≤ 1036 }
    ensures { result ≡ move_needs from into (length blocks.now) (slots_at (pages_of working.now) blocks.now) }
{
    if from == into {
        return 0;
    }
    working.link_need(blocks)
}

/// Whether there is then no room in `into` for one more name.
fn is_full(working: &Working, from: u32, into: u32, blocks: &[BlockNo]) -> bool
    requires held { AreDirsAt (pages_of working.now) blocks.now }
    requires few { length blocks.now ≤ 1036 }
    ensures { result ≡ is_full_of from into (slots_at (pages_of working.now) blocks.now) }
{
    from != into && working.is_full(blocks)
}

/// What moving takes, or why it is refused.
fn plan_rename(
    alloc: Global,
    working: &Working,
    queue: QueueNo,
    from: &Path,
    to: &Path,
) -> Result<Result<Renaming, Fault>, Missing>
    requires possible { HasVolume working.now }
    requires queue { queue < queues_of working.now.geometry }
    requires names { list_all is_name from.now ≡ true }
    requires new_names { list_all is_name to.now ≡ true }
    ensures ok { IfOk result (λ plan. OfEach working.now
        (λ v. MatchResult plan (PlansRename working.now.geometry queue v from.now to.now)
        (IsRefused working.now.geometry v
        (rename_of working.now.geometry queue v from.now to.now (target_of v (way from.now)))))) }
    ensures pages { IfOk result (λ plan. MatchResult plan
        (HoldsRename working.now.geometry (pages_of working.now)) (λ _. ⊤)) }
    ensures lack { IfErr result (MissingOf working.now
        (λ v b. LooksAt working.now.geometry queue v (Rename from.now to.now) b)) }
{
    let (d, inode) = match plan_source(alloc, working, from, to)? {
        Ok(found) => found,
        Err(fault) => return Ok(Err(fault)),
    };
    let into = match working.target(alloc, to)? {
        Target::Root | Target::In { found: Some(_), .. } => return Ok(Err(Fault::Exists)),
        Target::Lost(fault) => return Ok(Err(fault)),
        Target::In {
            directory,
            found: None,
        } => directory,
    };
    let source = working.open_directory(alloc, d)?;
    let directory = working.open_directory(alloc, into)?;
    if is_full(working, d, into, &directory.blocks) {
        return Ok(Err(Fault::TooBig));
    }
    let need = move_need(working, d, into, &directory.blocks);
    let Some(picks) = working.pick(alloc, queue, need)? else {
        return Ok(Err(Fault::NoSpace));
    };
    working.look_for_all(alloc, &picks)?;
    Ok(Ok(Renaming {
        source,
        directory,
        inode,
        picks,
    }))
}

/// Moves what was planned.
fn carry_rename(
    alloc: Global,
    working: &mut Working,
    from: &Path,
    to: &Path,
    renaming: Renaming,
) -> Result<(), OutOfMemory>
    requires possible { (q : ℕ)
        × (v : Volume)
        × Agrees working.old.geometry (pages_of working.old) v
        × PlansRename working.old.geometry q v from.now to.now renaming }
    requires pages { HoldsRename working.old.geometry (pages_of working.old) renaming }
    ensures over { OnOk result (IsOver working.old working.new) }
    ensures moved { OnOk result ((q : ℕ) (v : Volume)
        → Agrees working.old.geometry (pages_of working.old) v
        → PlansRename working.old.geometry q v from.now to.now renaming
        → Becomes working.old.geometry v
        (linked working.old.geometry q
        (unlinked v renaming.source.number (last_of (way from.now))) renaming.directory.number
        (moved_entry to.now renaming)) working.old working.new) }
{
    let Renaming {
        source,
        mut directory,
        inode,
        picks,
    } = renaming;
    let (Some(old), Some(new)) = (from.0.last(), to.0.last()) else {
        unreachable!();
    };
    working.unlink_name(alloc, &source.blocks, &old.0)?;
    working.link_name(alloc, &mut directory, inode, &new.0, &picks)
}

/// Moves a file or a directory with all that is below it.
pub fn rename(
    alloc: Global,
    working: &mut Working,
    queue: QueueNo,
    from: &Path,
    to: &Path,
) -> Result<Reply, Missing>
    requires possible { HasVolume working.old }
    requires queue { queue < queues_of working.old.geometry }
    requires names { list_all is_name from.now ≡ true }
    requires new_names { list_all is_name to.now ≡ true }
    ensures over { OnOk result (IsOver working.old working.new) }
    ensures ok { IfOk result (λ reply. OfEach working.old
        (λ v. ComesTo working.old.geometry v
        (rename_of working.old.geometry queue v from.now to.now
        (target_of v (way from.now))) reply working.old working.new)) }
    ensures lack { IfErr result (MissingOf working.old
        (λ v b. LooksAt working.old.geometry queue v (Rename from.now to.now) b)) }
{
    match plan_rename(alloc, working, queue, from, to)? {
        Ok(renaming) => carry_rename(alloc, working, from, to, renaming)?,
        Err(fault) => return Ok(Reply::Refused(fault)),
    }
    Ok(Reply::Ok)
}
