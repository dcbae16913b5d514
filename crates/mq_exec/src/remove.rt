// Files and directories that are removed.
ghost use Rattle.std.specs.Prelude.{◌≡◌, ◌≤◌, ◌-◌, ℕ, length, true, IfErr, IfOk, MatchResult, OnOk, ⊤, ◌⊎◌};
ghost use Rattle.std.specs.List.{All, Contains, list_all};
ghost use Rattle.mq_exec.specs.Plans.{ComesTo, HoldsRemove, IsFound, IsRefused, MayRelease, PlansRemove, PlansShed};
ghost use Rattle.mq_exec.specs.Removes.{IsInZones, LooksFreed, owned as owned_by};
ghost use Rattle.mq_inodes.specs.Changes.{zone_in};
ghost use Rattle.mq_inodes.specs.Dirs.{AreDirsAt};
ghost use Rattle.mq_inodes.specs.Edits.{Becomes, IsOver};
ghost use Rattle.mq_inodes.specs.Fits.{Agrees};
ghost use Rattle.mq_inodes.specs.MissingPages.{HasVolume, MissingOf, OfEach};
ghost use Rattle.mq_inodes.specs.Opened.{IsOpened};
ghost use Rattle.mq_inodes.specs.Pages.{IsHeld, pages_of};
ghost use Rattle.mq_inodes.specs.Walks.{last_of};
ghost use Rattle.mq_layout.specs.Names.{is_name};
ghost use Rattle.mq_layout.specs.Places.{inode_bitmap as inode_bitmap_of, inode_block as inode_block_of, zone_bitmap as zone_bitmap_of};
ghost use Rattle.mq_tree.specs.Looks.{LooksAt};
ghost use Rattle.mq_tree.specs.Requests.{Verdict, freed, rmdir as rmdir_of, target as target_of, unlink as unlink_of, unlinked, with_links};
ghost use Rattle.mq_tree.specs.Volume.{Volume, way};
ghost use Rattle.mq_tree.specs.declared.request.Request.TheVariants.{Rmdir, Unlink};

use crate::file::{Found, find_file};
use mq_blocks::{BlockNo, Geometry, OutOfMemory, QueueNo};
use mq_inodes::{DIRECT, DIRECTORY, Missing, Opened, Target, Working};
use mq_layout::{Inode, inode_bitmap, zone_bitmap};
use mq_tree::{Fault, Path, Reply};
use std::alloc::Global;

/// The directory that loses a name, and the inode that is freed.
#[derive(Drop)]
pub struct Removal {
    pub directory: Opened,
    pub gone: Opened,
}

/// The bitmap of the zone of a block.
fn bitmap_of(geometry: Geometry, b: BlockNo) -> BlockNo
    requires { IsInZones geometry b }
    ensures { result ≡ zone_bitmap_of (zone_in geometry b) }
{
    let zone = (b.0 - geometry.meta()) / geometry.zone();
    zone_bitmap(geometry, QueueNo(zone))
}

/// Adds a block unless it was the last one added.
fn push_new(blocks: &mut Vec<BlockNo>, b: BlockNo) -> Result<(), OutOfMemory>
    ensures there { OnOk result (Contains blocks.new.items b) }
    ensures kept { OnOk result ((x : ℕ) → Contains blocks.old.items x → Contains blocks.new.items x) }
    ensures only { OnOk result ((x : ℕ)
        → Contains blocks.new.items x
        → Contains blocks.old.items x ⊎ (x ≡ b)) }
{
    if let Some(last) = blocks.last() {
        if last.0 == b.0 {
            return Ok(());
        }
    }
    blocks.push(b)?;
    Ok(())
}

/// The block of pointers.
pub fn indirect(inode: &Inode) -> u32
    ensures { result ≡ inode.now.indirect }
{
    inode.indirect
}

/// The blocks of an inode, and its block of pointers.
fn owned(alloc: Global, o: &Opened) -> Result<Vec<BlockNo>, OutOfMemory>
    ensures { IfOk result (λ blocks. blocks.items ≡ owned_by o.now) }
{
    let mut blocks = Vec::from_slice(alloc, &o.blocks)?;
    if o.blocks.len() > DIRECT as usize {
        blocks.push(BlockNo(indirect(&o.inode)))?;
    }
    Ok(blocks)
}

/// The bitmaps of the zones of these blocks.
pub fn bitmaps(
    alloc: Global,
    working: &Working,
    blocks: &[BlockNo],
) -> Result<Vec<BlockNo>, OutOfMemory>
    requires { All (IsInZones working.now.geometry) blocks.now }
    ensures all { IfOk result (λ bitmaps. All
        (λ b. Contains bitmaps.items (zone_bitmap_of (zone_in working.now.geometry b))) blocks.now) }
    ensures only { IfOk result (λ bitmaps. All (λ x. (b : ℕ)
        × Contains blocks.now b
        × (x ≡ zone_bitmap_of (zone_in working.now.geometry b))) bitmaps.items) }
{
    let mut bitmaps = Vec::new(alloc);
    for b in blocks {
        push_new(&mut bitmaps, bitmap_of(working.geometry, *b))?;
    }
    Ok(bitmaps)
}

/// Checks that all pages are known that change when an inode is freed: its blocks, the bitmaps of
/// their zones, and the bitmap of inodes.
fn look_to_free(alloc: Global, working: &Working, o: &Opened) -> Result<(), Missing>
    requires possible { HasVolume working.now }
    requires opened { OfEach working.now (λ v. IsOpened working.now.geometry v o.now) }
    ensures release { OnOk result (MayRelease working.now.geometry (pages_of working.now) o.now) }
    ensures marks { OnOk result (IsHeld (pages_of working.now) (inode_bitmap_of working.now.geometry)) }
    ensures lack { IfErr result (MissingOf working.now
        (λ v b. LooksFreed working.now.geometry v o.now.number b)) }
{
    let mut wanted = owned(alloc, o)?;
    let mut bitmaps = bitmaps(alloc, working, &wanted)?;
    bitmaps.push(inode_bitmap(working.geometry))?;
    bitmaps.append(&mut wanted)?;
    working.look_for_all(alloc, &bitmaps)
}

/// What removing the last name of a file takes.
fn plan_unlink(
    alloc: Global,
    working: &Working,
    path: &Path,
    found: &Found,
) -> Result<Removal, Missing>
    requires possible { HasVolume working.now }
    requires names { list_all is_name path.now ≡ true }
    requires found { OfEach working.now (λ v. IsFound v path.now found.now) }
    requires last { found.now.inode.links ≤ 1 }
    requires table { IsHeld (pages_of working.now) (inode_block_of working.now.geometry found.now.number) }
    ensures ok { IfOk result (λ m. OfEach working.now
        (λ v. PlansRemove working.now.geometry v (unlink_of v (target_of v (way path.now))) path.now m)) }
    ensures pages { IfOk result (HoldsRemove working.now.geometry (pages_of working.now)) }
    ensures lack { IfErr result (MissingOf working.now (λ v b. (q : ℕ)
        → LooksAt working.now.geometry q v (Unlink path.now) b)) }
{
    let directory = working.open_directory(alloc, found.directory)?;
    let gone = working.open_file(alloc, found.number, &found.inode)?;
    look_to_free(alloc, working, &gone)?;
    Ok(Removal { directory, gone })
}

/// What removing a directory takes, or why it is refused.
fn plan_rmdir(
    alloc: Global,
    working: &Working,
    path: &Path,
) -> Result<Result<Removal, Fault>, Missing>
    requires possible { HasVolume working.now }
    requires names { list_all is_name path.now ≡ true }
    ensures ok { IfOk result (λ plan. OfEach working.now
        (λ v. MatchResult plan
        (PlansRemove working.now.geometry v (rmdir_of v (target_of v (way path.now))) path.now)
        (IsRefused working.now.geometry v (rmdir_of v (target_of v (way path.now)))))) }
    ensures pages { IfOk result (λ plan. MatchResult plan
        (HoldsRemove working.now.geometry (pages_of working.now)) (λ _. ⊤)) }
    ensures lack { IfErr result (MissingOf working.now (λ v b. (q : ℕ)
        → LooksAt working.now.geometry q v (Rmdir path.now) b)) }
{
    let (d, i) = match working.target(alloc, path)? {
        Target::Root => return Ok(Err(Fault::BadName)),
        Target::Lost(fault) => return Ok(Err(fault)),
        Target::In { found: None, .. } => return Ok(Err(Fault::NotFound)),
        Target::In {
            directory,
            found: Some(i),
        } => (directory, i),
    };
    if working.inode(alloc, i)?.kind != DIRECTORY {
        return Ok(Err(Fault::NotDir));
    }
    let gone = working.open_directory(alloc, i)?;
    if working.count(&gone.blocks) != 0 {
        return Ok(Err(Fault::NotEmpty));
    }
    let directory = working.open_directory(alloc, d)?;
    look_to_free(alloc, working, &gone)?;
    Ok(Ok(Removal { directory, gone }))
}

/// Removes what was planned.
fn carry_remove(
    alloc: Global,
    working: &mut Working,
    path: &Path,
    removal: &Removal,
) -> Result<(), OutOfMemory>
    requires possible { (v : Volume)
        × (verdict : Verdict)
        × Agrees working.old.geometry (pages_of working.old) v
        × PlansRemove working.old.geometry v verdict path.now removal.now }
    requires pages { HoldsRemove working.old.geometry (pages_of working.old) removal.now }
    ensures over { OnOk result (IsOver working.old working.new) }
    ensures removed { OnOk result ((v : Volume) (verdict : Verdict)
        → Agrees working.old.geometry (pages_of working.old) v
        → PlansRemove working.old.geometry v verdict path.now removal.now
        → Becomes working.old.geometry v
        (freed (unlinked v removal.now.directory.number
        (last_of (way path.now))) removal.now.gone.number) working.old working.new) }
{
    let Some(name) = path.0.last() else {
        unreachable!();
    };
    working.unlink_name(alloc, &removal.directory.blocks, &name.0)?;
    working.free_inode_of(alloc, &removal.gone)
}

/// Removes one of several names of a file: the file stays, and has a link less.
fn shed(
    alloc: Global,
    working: &mut Working,
    path: &Path,
    blocks: &[BlockNo],
    found: &Found,
) -> Result<(), OutOfMemory>
    requires possible { (v : Volume)
        × Agrees working.old.geometry (pages_of working.old) v
        × PlansShed working.old.geometry v path.now blocks.now found.now }
    requires dirs { AreDirsAt (pages_of working.old) blocks.now }
    requires few { length blocks.now ≤ 1036 }
    requires table { IsHeld (pages_of working.old) (inode_block_of working.old.geometry found.now.number) }
    ensures over { OnOk result (IsOver working.old working.new) }
    ensures shed { OnOk result ((v : Volume)
        → Agrees working.old.geometry (pages_of working.old) v
        → PlansShed working.old.geometry v path.now blocks.now found.now
        → Becomes working.old.geometry v
        (with_links (unlinked v found.now.directory
        (last_of (way path.now))) found.now.number (found.now.inode.links - 1)) working.old working.new) }
{
    let Some(name) = path.0.last() else {
        unreachable!();
    };
    working.unlink_name(alloc, blocks, &name.0)?;
    working.put_links(alloc, found.number, &found.inode, found.inode.links - 1)
}

/// Removes a name of a file, and the file with its last name.
pub fn unlink(alloc: Global, working: &mut Working, path: &Path) -> Result<Reply, Missing>
    requires possible { HasVolume working.old }
    requires names { list_all is_name path.now ≡ true }
    ensures over { OnOk result (IsOver working.old working.new) }
    ensures ok { IfOk result (λ reply. OfEach working.old
        (λ v. ComesTo working.old.geometry v
        (unlink_of v (target_of v (way path.now))) reply working.old working.new)) }
    ensures lack { IfErr result (MissingOf working.old (λ v b. (q : ℕ)
        → LooksAt working.old.geometry q v (Unlink path.now) b)) }
{
    let found = match find_file(alloc, working, path)? {
        Ok(found) => found,
        Err(fault) => return Ok(Reply::Refused(fault)),
    };
    if found.inode.links > 1 {
        let directory = working.open_directory(alloc, found.directory)?;
        shed(alloc, working, path, &directory.blocks, &found)?;
        return Ok(Reply::Ok);
    }
    let removal = plan_unlink(alloc, working, path, &found)?;
    carry_remove(alloc, working, path, &removal)?;
    Ok(Reply::Ok)
}

/// Removes an empty directory.
pub fn rmdir(alloc: Global, working: &mut Working, path: &Path) -> Result<Reply, Missing>
    requires possible { HasVolume working.old }
    requires names { list_all is_name path.now ≡ true }
    ensures over { OnOk result (IsOver working.old working.new) }
    ensures ok { IfOk result (λ reply. OfEach working.old
        (λ v. ComesTo working.old.geometry v
        (rmdir_of v (target_of v (way path.now))) reply working.old working.new)) }
    ensures lack { IfErr result (MissingOf working.old (λ v b. (q : ℕ)
        → LooksAt working.old.geometry q v (Rmdir path.now) b)) }
{
    match plan_rmdir(alloc, working, path)? {
        Ok(removal) => carry_remove(alloc, working, path, &removal)?,
        Err(fault) => return Ok(Reply::Refused(fault)),
    }
    Ok(Reply::Ok)
}
