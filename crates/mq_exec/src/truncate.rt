// Files that get another size.
ghost use Rattle.std.specs.Prelude.{◌≡◌, ◌<◌, ◌≤◌, ◌/◌, ℕ, length, true, IfErr, IfOk, OnOk};
ghost use Rattle.std.specs.List.{All, list_all};
ghost use Rattle.mq_blocks.specs.Geometry.{queues_of};
ghost use Rattle.mq_exec.specs.Cuts.{HoldsCut, IsBlanked, LooksCut, PlansCut};
ghost use Rattle.mq_exec.specs.Longer.{LooksLonger};
ghost use Rattle.mq_exec.specs.Plans.{ComesTo, HoldsPlaces};
ghost use Rattle.mq_inodes.specs.Edits.{Becomes, IsOver};
ghost use Rattle.mq_inodes.specs.Fits.{Agrees};
ghost use Rattle.mq_inodes.specs.MissingPages.{HasVolume, MissingOf, OfEach};
ghost use Rattle.mq_inodes.specs.Opened.{HoldsPointers, IsOpened, IsReleasable, cut_file};
ghost use Rattle.mq_inodes.specs.Pages.{IsHeld, pages_of};
ghost use Rattle.mq_inodes.specs.Files.{IsFileOf};
ghost use Rattle.mq_inodes.specs.Released.{gone_from};
ghost use Rattle.mq_layout.specs.Names.{is_name};
ghost use Rattle.mq_layout.specs.Places.{inode_block as inode_block_of};
ghost use Rattle.mq_tree.specs.Looks.{LooksAt};
ghost use Rattle.mq_tree.specs.Requests.{cut_to, target as target_of, truncate as truncate_of, truncate_in};
ghost use Rattle.mq_tree.specs.Sound.{blocks_for};
ghost use Rattle.mq_tree.specs.Volume.{Volume, body, way};
ghost use Rattle.mq_tree.specs.declared.request.Request.TheVariants.{Truncate};

use crate::file::{Found, find_file};
use crate::remove::{bitmaps, indirect};
use crate::rewrite::{carry_rewrite, plan_longer};
use mq_blocks::{Block, BlockNo, OutOfMemory, QueueNo};
use mq_inodes::{DIRECT, Missing, Opened, Working, count_for};
use mq_layout::FILE_LIMIT;
use mq_tree::{Fault, Path, Reply};
use std::alloc::Global;

const BLOCK: u64 = 4096;

/// A file that is cut, and its size afterwards.
#[derive(Drop)]
pub struct Cutting {
    pub file: Opened,
    pub size: u64,
}

/// The blocks of a file after the first `count`, and that of its pointers if it is no longer needed.
fn gone(alloc: Global, file: &Opened, count: u32) -> Result<Vec<BlockNo>, OutOfMemory>
    requires { count ≤ length file.now.blocks.items }
    ensures { IfOk result (λ blocks. blocks.items ≡ gone_from file.now count) }
{
    let mut blocks = Vec::from_slice(alloc, &file.blocks[count as usize..])?;
    if count <= DIRECT && file.blocks.len() > DIRECT as usize {
        blocks.push(BlockNo(indirect(&file.inode)))?;
    }
    Ok(blocks)
}

/// Extends a file with zeros.
fn fill(
    alloc: Global,
    working: &mut Working,
    queue: QueueNo,
    found: &Found,
    size: u64,
) -> Result<Reply, Missing>
    requires possible { HasVolume working.old }
    requires queue { queue < queues_of working.old.geometry }
    requires file { OfEach working.old (λ v. IsFileOf v found.now.number found.now.inode) }
    requires table { IsHeld (pages_of working.old) (inode_block_of working.old.geometry found.now.number) }
    requires limit { size ≤ 4243456 }
    requires longer { found.now.inode.size ≤ size }
    ensures over { OnOk result (IsOver working.old working.new) }
    ensures ok { IfOk result (λ reply. OfEach working.old
        (λ v. ComesTo working.old.geometry v
        (truncate_in working.old.geometry queue v found.now.number size
        (body v found.now.number)) reply working.old working.new)) }
    ensures lack { IfErr result (MissingOf working.old
        (λ v b. LooksLonger working.old.geometry queue v found.now.number size 0 0 b)) }
{
    match plan_longer(alloc, working, queue, found, size, 0, 0)? {
        Some(rewriting) => carry_rewrite(alloc, working, 0, &[], rewriting)?,
        None => return Ok(Reply::Refused(Fault::NoSpace)),
    }
    Ok(Reply::Ok)
}

/// Checks that all pages are known that change when a file is cut: its blocks from that of the first
/// byte that is cut off, and the bitmaps of the zones of those that are freed.
fn look_to_cut(alloc: Global, working: &Working, file: &Opened, size: u64) -> Result<(), Missing>
    requires possible { HasVolume working.now }
    requires opened { OfEach working.now (λ v. IsOpened working.now.geometry v file.now) }
    requires limit { size ≤ 4243456 }
    requires few { blocks_for size ≤ length file.now.blocks.items }
    requires pointers { HoldsPointers (pages_of working.now) file.now }
    ensures last { OnOk result (HoldsPlaces (pages_of working.now) file.now.blocks.items (size / 4096)
        (blocks_for size)) }
    ensures release { OnOk result (All (IsReleasable working.now.geometry (pages_of working.now))
        (gone_from file.now (blocks_for size))) }
    ensures lack { IfErr result (MissingOf working.now
        (λ v b. LooksCut working.now.geometry v file.now.number size b)) }
{
    let gone = gone(alloc, file, count_for(size))?;
    let mut wanted = bitmaps(alloc, working, &gone)?;
    wanted.extend_from_slice(&file.blocks[(size / BLOCK) as usize..])?;
    working.look_for_all(alloc, &wanted)
}

/// What cutting a file takes.
fn plan_cut(alloc: Global, working: &Working, found: &Found, size: u64) -> Result<Cutting, Missing>
    requires possible { HasVolume working.now }
    requires file { OfEach working.now (λ v. IsFileOf v found.now.number found.now.inode) }
    requires table { IsHeld (pages_of working.now) (inode_block_of working.now.geometry found.now.number) }
    requires shorter { size < found.now.inode.size }
    ensures number { IfOk result (λ plan. (plan.file.number ≡ found.now.number) × (plan.size ≡ size)) }
    ensures ok { IfOk result (λ plan. OfEach working.now (λ v. PlansCut working.now.geometry v plan)) }
    ensures pages { IfOk result (HoldsCut working.now.geometry (pages_of working.now)) }
    ensures lack { IfErr result (MissingOf working.now
        (λ v b. LooksCut working.now.geometry v found.now.number size b)) }
{
    let file = working.open_file(alloc, found.number, &found.inode)?;
    look_to_cut(alloc, working, &file, size)?;
    Ok(Cutting { file, size })
}

/// Writes zeros after the last byte of a file of this size, up to the end of its block.
fn blank(
    alloc: Global,
    working: &mut Working,
    blocks: &[BlockNo],
    size: u64,
) -> Result<(), OutOfMemory>
    requires limit { size ≤ 4243456 }
    requires few { blocks_for size ≤ length blocks.now }
    requires held { HoldsPlaces (pages_of working.old) blocks.now (size / 4096) (blocks_for size) }
    ensures over { OnOk result (IsOver working.old working.new) }
    ensures blanked { OnOk result (IsBlanked working.old working.new blocks.now size) }
{
    let from = (size % BLOCK) as usize;
    if from == 0 {
        return Ok(());
    }
    let zeros = Block::zeroed(alloc)?;
    let b = blocks[(size / BLOCK) as usize];
    working.put_bytes(alloc, b, from, &zeros.bytes()[from..])
}

/// Cuts a file as it was planned.
fn carry_cut(alloc: Global, working: &mut Working, cutting: &Cutting) -> Result<(), OutOfMemory>
    requires possible { (v : Volume)
        × Agrees working.old.geometry (pages_of working.old) v
        × PlansCut working.old.geometry v cutting.now }
    requires pages { HoldsCut working.old.geometry (pages_of working.old) cutting.now }
    ensures over { OnOk result (IsOver working.old working.new) }
    ensures cut { OnOk result ((v : Volume)
        → Agrees working.old.geometry (pages_of working.old) v
        → (plan : PlansCut working.old.geometry v cutting.now)
        → Becomes working.old.geometry v
        (cut_file v cutting.now.file.number (blocks_for cutting.now.size)
        (cut_to cutting.now.size plan.bytes)) working.old working.new) }
{
    blank(alloc, working, &cutting.file.blocks, cutting.size)?;
    working.cut(alloc, &cutting.file, count_for(cutting.size), cutting.size)
}

/// Cuts a file to a size that is smaller than its own.
fn shorten(alloc: Global, working: &mut Working, found: &Found, size: u64) -> Result<Reply, Missing>
    requires possible { HasVolume working.old }
    requires file { OfEach working.old (λ v. IsFileOf v found.now.number found.now.inode) }
    requires table { IsHeld (pages_of working.old) (inode_block_of working.old.geometry found.now.number) }
    requires shorter { size < found.now.inode.size }
    ensures over { OnOk result (IsOver working.old working.new) }
    ensures ok { IfOk result (λ reply. OfEach working.old (λ v. (q : ℕ)
        → ComesTo working.old.geometry v
        (truncate_in working.old.geometry q v found.now.number size
        (body v found.now.number)) reply working.old working.new)) }
    ensures lack { IfErr result (MissingOf working.old
        (λ v b. LooksCut working.old.geometry v found.now.number size b)) }
{
    let cutting = plan_cut(alloc, working, found, size)?;
    carry_cut(alloc, working, &cutting)?;
    Ok(Reply::Ok)
}

/// Cuts a file to this size, or extends it with zeros up to it.
pub fn truncate(
    alloc: Global,
    working: &mut Working,
    queue: QueueNo,
    path: &Path,
    size: u64,
) -> Result<Reply, Missing>
    requires possible { HasVolume working.old }
    requires queue { queue < queues_of working.old.geometry }
    requires names { list_all is_name path.now ≡ true }
    ensures over { OnOk result (IsOver working.old working.new) }
    ensures ok { IfOk result (λ reply. OfEach working.old
        (λ v. ComesTo working.old.geometry v
        (truncate_of working.old.geometry queue v size
        (target_of v (way path.now))) reply working.old working.new)) }
    ensures lack { IfErr result (MissingOf working.old
        (λ v b. LooksAt working.old.geometry queue v (Truncate path.now size) b)) }
{
    let found = match find_file(alloc, working, path)? {
        Ok(found) => found,
        Err(fault) => return Ok(Reply::Refused(fault)),
    };
    if size > FILE_LIMIT {
        return Ok(Reply::Refused(Fault::TooBig));
    }
    if size < found.inode.size {
        return shorten(alloc, working, &found, size);
    }
    fill(alloc, working, queue, &found, size)
}
