// Files that get one more name.
ghost use Rattle.std.specs.Prelude.{◌≡◌, ◌<◌, ℕ, true, IfErr, IfOk, MatchResult, OnOk, ⊤};
ghost use Rattle.std.specs.List.{list_all};
ghost use Rattle.mq_blocks.specs.Geometry.{queues_of};
ghost use Rattle.mq_exec.specs.Plans.{ComesTo, HoldsLink, IsRefused, PlansLink, linked_entry, more_links};
ghost use Rattle.mq_inodes.specs.Edits.{Becomes, IsOver};
ghost use Rattle.mq_inodes.specs.Fits.{Agrees};
ghost use Rattle.mq_inodes.specs.MissingPages.{HasVolume, MissingOf, OfEach};
ghost use Rattle.mq_inodes.specs.Pages.{pages_of};
ghost use Rattle.mq_layout.specs.Names.{is_name};
ghost use Rattle.mq_tree.specs.Looks.{LooksAt};
ghost use Rattle.mq_tree.specs.Requests.{link as link_of, linked, target as target_of};
ghost use Rattle.mq_tree.specs.Volume.{Volume, way};
ghost use Rattle.mq_tree.specs.declared.request.Request.TheVariants.{Link};

use crate::file::{Found, find_file};
use mq_blocks::{BlockNo, OutOfMemory, QueueNo};
use mq_inodes::{Missing, Opened, Place, Working};
use mq_tree::{Fault, Path, Reply};
use std::alloc::Global;

/// The most names of a file.
const LINKS_LIMIT: u16 = 65_535;

/// The file, the directory that gets a name, and the blocks that the name takes.
#[derive(Drop)]
pub struct Linking {
    pub file: Found,
    pub directory: Opened,
    pub picks: Vec<BlockNo>,
}

/// What one more name of a file takes, or why it is refused.
fn plan_link(
    alloc: Global,
    working: &Working,
    queue: QueueNo,
    from: &Path,
    to: &Path,
) -> Result<Result<Linking, Fault>, Missing>
    requires possible { HasVolume working.now }
    requires queue { queue < queues_of working.now.geometry }
    requires names { list_all is_name from.now ≡ true }
    requires new_names { list_all is_name to.now ≡ true }
    ensures ok { IfOk result (λ plan. OfEach working.now
        (λ v. MatchResult plan (PlansLink working.now.geometry queue v from.now to.now)
        (IsRefused working.now.geometry v
        (link_of working.now.geometry queue v (target_of v (way to.now)) (target_of v (way from.now)))))) }
    ensures pages { IfOk result (λ plan. MatchResult plan
        (HoldsLink working.now.geometry (pages_of working.now)) (λ _. ⊤)) }
    ensures lack { IfErr result (MissingOf working.now
        (λ v b. LooksAt working.now.geometry queue v (Link from.now to.now) b)) }
{
    let file = match find_file(alloc, working, from)? {
        Ok(found) => found,
        Err(fault) => return Ok(Err(fault)),
    };
    let directory = match working.place(alloc, to)? {
        Place::Root | Place::In { found: Some(_), .. } => return Ok(Err(Fault::Exists)),
        Place::Lost(fault) => return Ok(Err(fault)),
        Place::In {
            directory,
            found: None,
            ..
        } => directory,
    };
    if working.is_full(&directory.blocks) {
        return Ok(Err(Fault::TooBig));
    }
    if file.inode.links == LINKS_LIMIT {
        return Ok(Err(Fault::Links));
    }
    let need = working.link_need(&directory.blocks);
    let Some(picks) = working.pick(alloc, queue, need)? else {
        return Ok(Err(Fault::NoSpace));
    };
    working.look_for_all(alloc, &picks)?;
    Ok(Ok(Linking {
        file,
        directory,
        picks,
    }))
}

/// Adds the name that was planned.
fn carry_link(
    alloc: Global,
    working: &mut Working,
    from: &Path,
    to: &Path,
    linking: Linking,
) -> Result<(), OutOfMemory>
    requires possible { (q : ℕ)
        × (v : Volume)
        × Agrees working.old.geometry (pages_of working.old) v
        × PlansLink working.old.geometry q v from.now to.now linking }
    requires pages { HoldsLink working.old.geometry (pages_of working.old) linking }
    ensures over { OnOk result (IsOver working.old working.new) }
    ensures added { OnOk result ((q : ℕ) (v : Volume)
        → Agrees working.old.geometry (pages_of working.old) v
        → PlansLink working.old.geometry q v from.now to.now linking
        → Becomes working.old.geometry v
        (linked working.old.geometry q (more_links v linking) linking.directory.number
        (linked_entry to.now linking)) working.old working.new) }
{
    let Linking {
        file,
        mut directory,
        picks,
    } = linking;
    let Some(name) = to.0.last() else {
        unreachable!();
    };
    working.put_links(alloc, file.number, &file.inode, file.inode.links + 1)?;
    working.link_name(alloc, &mut directory, file.number, &name.0, &picks)
}

/// Gives a file one more name.
pub fn link(
    alloc: Global,
    working: &mut Working,
    queue: QueueNo,
    from: &Path,
    to: &Path,
) -> Result<Reply, Missing>
    requires possible { HasVolume working.old }
    requires queue { queue < queues_of working.old.geometry }
    requires names { list_all is_name from.now ≡ true }
    requires new_names { list_all is_name to.now ≡ true }
    ensures over { OnOk result (IsOver working.old working.new) }
    ensures ok { IfOk result (λ reply. OfEach working.old
        (λ v. ComesTo working.old.geometry v
        (link_of working.old.geometry queue v (target_of v (way to.now))
        (target_of v (way from.now))) reply working.old working.new)) }
    ensures lack { IfErr result (MissingOf working.old
        (λ v b. LooksAt working.old.geometry queue v (Link from.now to.now) b)) }
{
    match plan_link(alloc, working, queue, from, to)? {
        Ok(linking) => carry_link(alloc, working, from, to, linking)?,
        Err(fault) => return Ok(Reply::Refused(fault)),
    }
    Ok(Reply::Ok)
}
