// Files and directories that are made.
ghost use Rattle.std.specs.Prelude.{◌≡◌, ◌<◌, Bool, IfErr, IfOk, MatchResult, OnOk, ⊤};
ghost use Rattle.mq_blocks.specs.Geometry.{queues_of};
ghost use Rattle.mq_exec.specs.Plans.{ComesTo, HoldsMake, IsRefused, IsSeen, PlansMake, made_entry, make_request, wanted as wanted_of};
ghost use Rattle.mq_inodes.specs.Edits.{Becomes, Carries, IsOver};
ghost use Rattle.mq_inodes.specs.Fits.{Agrees};
ghost use Rattle.mq_inodes.specs.MissingPages.{HasVolume, MissingOf, OfEach};
ghost use Rattle.mq_inodes.specs.Pages.{IsHeld, pages_of};
ghost use Rattle.mq_inodes.specs.Unseen.{AreFree};
ghost use Rattle.mq_inodes.specs.Bare.{empty_body, with_inode};
ghost use Rattle.mq_tree.specs.Looks.{LooksAt};
ghost use Rattle.mq_tree.specs.Requests.{linked, make as make_of, target as target_of};
ghost use Rattle.mq_tree.specs.Volume.{Volume, way};
ghost use Rattle.mq_layout.specs.Names.{is_name};
ghost use Rattle.mq_layout.specs.Places.{inode_block as inode_block_of, inodes_of};
ghost use Rattle.std.specs.List.{Contains, list_all};
ghost use Rattle.std.specs.Prelude.{ℕ, true};

use mq_blocks::{BlockNo, Geometry, OutOfMemory, QueueNo};
use mq_inodes::{Missing, Opened, Place, Working, name_need};
use mq_layout::inode_block;
use mq_tree::{Fault, Path, Reply};
use std::alloc::Global;

/// The directory that gets a name, the inode that is made, the blocks that the name takes, and the first
/// unused slot of the directory.
#[derive(Drop)]
pub struct Creation {
    pub directory: Opened,
    pub inode: u32,
    pub picks: Vec<BlockNo>,
    pub unused: Option<u32>,
}

/// The blocks that are looked at last when a file or directory is made: those that it takes, and that of
/// the inode.
pub fn wanted(
    alloc: Global,
    geometry: Geometry,
    creation: &Creation,
) -> Result<Vec<BlockNo>, OutOfMemory>
    requires { creation.now.inode < inodes_of geometry }
    ensures { IfOk result (λ blocks. blocks.items ≡ wanted_of geometry creation.now) }
{
    let mut blocks = Vec::from_slice(alloc, &creation.picks)?;
    blocks.push(inode_block(geometry, creation.inode))?;
    Ok(blocks)
}

/// What making a file or a directory takes, or why it is refused, before the blocks that come last are
/// looked at.
pub fn draft_make(
    alloc: Global,
    working: &Working,
    queue: QueueNo,
    path: &Path,
) -> Result<Result<Creation, Fault>, Missing>
    requires possible { HasVolume working.now }
    requires queue { queue < queues_of working.now.geometry }
    requires names { list_all is_name path.now ≡ true }
    ensures ok { IfOk result (λ plan. OfEach working.now (λ v. (directory : Bool)
        → MatchResult plan (PlansMake working.now.geometry queue v (empty_body directory) path.now)
        (IsRefused working.now.geometry v
        (make_of working.now.geometry queue v (empty_body directory) (target_of v (way path.now)))))) }
    ensures pages { IfOk result (λ plan. MatchResult plan
        (HoldsMake working.now.geometry (pages_of working.now)) (λ _. ⊤)) }
    ensures wanted { IfOk result (λ plan. MatchResult plan (λ m. OfEach working.now (λ v. (b : ℕ)
        → Contains (wanted_of working.now.geometry m) b
        → (directory : Bool)
        → LooksAt working.now.geometry queue v (make_request directory path.now) b)) (λ _. ⊤)) }
    ensures lack { IfErr result (MissingOf working.now (λ v b. (directory : Bool)
        → LooksAt working.now.geometry queue v (make_request directory path.now) b)) }
{
    let (directory, unused) = match working.place(alloc, path)? {
        Place::Root | Place::In { found: Some(_), .. } => return Ok(Err(Fault::Exists)),
        Place::Lost(fault) => return Ok(Err(fault)),
        Place::In {
            directory,
            found: None,
            unused,
        } => (directory, unused),
    };
    if working.is_full(&directory.blocks) {
        return Ok(Err(Fault::TooBig));
    }
    let Some(inode) = working.free_inode(alloc)? else {
        return Ok(Err(Fault::NoInodes));
    };
    let need = name_need(&directory.blocks, unused);
    let Some(picks) = working.pick(alloc, queue, need)? else {
        return Ok(Err(Fault::NoSpace));
    };
    Ok(Ok(Creation {
        directory,
        inode,
        picks,
        unused,
    }))
}

/// What making a file or a directory takes, or why it is refused.
fn plan_make(
    alloc: Global,
    working: &Working,
    queue: QueueNo,
    path: &Path,
) -> Result<Result<Creation, Fault>, Missing>
    requires possible { HasVolume working.now }
    requires queue { queue < queues_of working.now.geometry }
    requires names { list_all is_name path.now ≡ true }
    ensures ok { IfOk result (λ plan. OfEach working.now (λ v. (directory : Bool)
        → MatchResult plan (PlansMake working.now.geometry queue v (empty_body directory) path.now)
        (IsRefused working.now.geometry v
        (make_of working.now.geometry queue v (empty_body directory) (target_of v (way path.now)))))) }
    ensures pages { IfOk result (λ plan. MatchResult plan
        (HoldsMake working.now.geometry (pages_of working.now)) (λ _. ⊤)) }
    ensures seen { IfOk result (λ plan. MatchResult plan
        (IsSeen working.now.geometry (pages_of working.now)) (λ _. ⊤)) }
    ensures lack { IfErr result (MissingOf working.now (λ v b. (directory : Bool)
        → LooksAt working.now.geometry queue v (make_request directory path.now) b)) }
{
    let creation = match draft_make(alloc, working, queue, path)? {
        Ok(creation) => creation,
        Err(fault) => return Ok(Err(fault)),
    };
    let wanted = wanted(alloc, working.geometry, &creation)?;
    working.look_for_all(alloc, &wanted)?;
    Ok(Ok(creation))
}

/// Makes what was planned. If the block of the inode is absent, it stays absent.
pub fn carry_make(
    alloc: Global,
    working: &mut Working,
    path: &Path,
    creation: Creation,
    is_directory: bool,
) -> Result<(), OutOfMemory>
    requires possible { (q : ℕ)
        × (v : Volume)
        × Agrees working.old.geometry (pages_of working.old) v
        × PlansMake working.old.geometry q v (empty_body is_directory) path.now creation }
    requires pages { HoldsMake working.old.geometry (pages_of working.old) creation }
    requires free { AreFree (pages_of working.old) creation.picks.items }
    ensures over { OnOk result (IsOver working.old working.new) }
    ensures carried { OnOk result ((q : ℕ) (v : Volume)
        → Agrees working.old.geometry (pages_of working.old) v
        → PlansMake working.old.geometry q v (empty_body is_directory) path.now creation
        → Carries working.old.geometry (pages_of working.new)
        (linked working.old.geometry q
        (with_inode v creation.inode (empty_body is_directory)) creation.directory.number
        (made_entry path.now creation))) }
    ensures made { OnOk result (IsHeld (pages_of working.old)
        (inode_block_of working.old.geometry creation.inode)
        → (q : ℕ) (v : Volume)
        → Agrees working.old.geometry (pages_of working.old) v
        → PlansMake working.old.geometry q v (empty_body is_directory) path.now creation
        → Becomes working.old.geometry v
        (linked working.old.geometry q
        (with_inode v creation.inode (empty_body is_directory)) creation.directory.number
        (made_entry path.now creation)) working.old working.new) }
{
    let Creation {
        mut directory,
        inode,
        picks,
        unused,
    } = creation;
    let Some(name) = path.0.last() else {
        unreachable!();
    };
    working.make_unseen_inode(alloc, inode, is_directory)?;
    working.link_name_at(alloc, &mut directory, inode, &name.0, &picks, unused)
}

/// Makes an empty file or directory.
pub fn make(
    alloc: Global,
    working: &mut Working,
    queue: QueueNo,
    path: &Path,
    is_directory: bool,
) -> Result<Reply, Missing>
    requires possible { HasVolume working.old }
    requires queue { queue < queues_of working.old.geometry }
    requires names { list_all is_name path.now ≡ true }
    ensures over { OnOk result (IsOver working.old working.new) }
    ensures ok { IfOk result (λ reply. OfEach working.old
        (λ v. ComesTo working.old.geometry v
        (make_of working.old.geometry queue v (empty_body is_directory)
        (target_of v (way path.now))) reply working.old working.new)) }
    ensures lack { IfErr result (MissingOf working.old
        (λ v b. LooksAt working.old.geometry queue v (make_request is_directory path.now) b)) }
{
    let planned = match plan_make(alloc, working, queue, path)? {
        Ok(planned) => planned,
        Err(fault) => return Ok(Reply::Refused(fault)),
    };
    carry_make(alloc, working, path, planned, is_directory)?;
    Ok(Reply::Ok)
}
