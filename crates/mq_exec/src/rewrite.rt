// Files that get other bytes.
ghost use Rattle.std.specs.Prelude.{◌≡◌, ◌<◌, ◌≤◌, ◌+◌, ◌/◌, ◌^◌, ◌==◌, ℕ, List, length, max, true, if◌then◌else◌};
ghost use Rattle.std.specs.Prelude.{IfErr, IfOk, MatchOption, OnOk, Some, ⊤};
ghost use Rattle.std.specs.List.{list_all};
ghost use Rattle.mq_blocks.specs.Geometry.{queues_of};
ghost use Rattle.mq_exec.specs.Overwrites.{AreApart, IsOverwritten, IsSplicedAt, blocks_at, past_place as past_place_of};
ghost use Rattle.mq_exec.specs.Longer.{IsRewriting, LooksLonger};
ghost use Rattle.mq_exec.specs.Plans.{ComesTo, HoldsPlaces, HoldsRewrite, IsRefused, PlansRewrite};
ghost use Rattle.mq_inodes.specs.Edits.{Becomes, IsOver};
ghost use Rattle.mq_inodes.specs.Fits.{Agrees};
ghost use Rattle.mq_inodes.specs.MissingPages.{HasVolume, MissingOf, OfEach};
ghost use Rattle.mq_inodes.specs.Pages.{IsHeld, pages_of};
ghost use Rattle.mq_inodes.specs.Files.{IsFileOf};
ghost use Rattle.mq_layout.specs.Names.{is_name};
ghost use Rattle.mq_layout.specs.Places.{inode_block as inode_block_of};
ghost use Rattle.mq_tree.specs.Looks.{LooksAt};
ghost use Rattle.mq_tree.specs.Requests.{Verdict, resized, target as target_of, write as write_of};
ghost use Rattle.mq_tree.specs.Sound.{AreBytes};
ghost use Rattle.mq_tree.specs.Volume.{Volume, way};
ghost use Rattle.mq_tree.specs.declared.request.Fault.TheVariants.{NoSpace};
ghost use Rattle.mq_tree.specs.declared.request.Request.TheVariants.{Write};

use crate::file::{Found, find_file};
use mq_blocks::{BlockNo, OutOfMemory, QueueNo};
use mq_inodes::{Missing, Opened, Working, count_for, needs};
use mq_layout::FILE_LIMIT;
use mq_tree::{Fault, Path, Reply};
use std::alloc::Global;

const BLOCK: usize = 4096;

/// A file that gets other bytes, the blocks that it takes, and its size afterwards.
#[derive(Drop)]
pub struct Rewriting {
    pub file: Opened,
    pub picks: Vec<BlockNo>,
    pub size: u64,
}

/// The size of a file after `count` bytes were written at an offset.
fn size_after(size: u64, at: u64, count: u64) -> u64
    requires { at + count < 2 ^ 64 }
    ensures { result ≡ (if count == 0 then size else max size (at + count)) }
{
    if count == 0 {
        size
    } else {
        size.max(at + count)
    }
}

/// The index after that of the last block that `count` bytes at an offset touch.
fn past_place(at: usize, count: usize) -> usize
    requires { at + count ≤ 4243456 }
    ensures { result ≡ past_place_of at count }
{
    if count == 0 {
        at / BLOCK
    } else {
        (at + count + BLOCK - 1) / BLOCK
    }
}

/// The blocks of a file that hold `count` bytes from an offset on.
fn touched(blocks: &[BlockNo], at: usize, count: usize) -> &[BlockNo]
    requires { at + count ≤ 4243456 }
    ensures { result.now ≡ blocks_at blocks.now (at / 4096) (past_place_of at count) }
{
    let past = past_place(at, count).min(blocks.len());
    let first = (at / BLOCK).min(past);
    &blocks[first..past]
}

/// What giving a file this size, which is not below its own, and other bytes at an offset takes. `None`
/// if there are too few free blocks.
pub fn plan_longer(
    alloc: Global,
    working: &Working,
    queue: QueueNo,
    found: &Found,
    size: u64,
    at: usize,
    count: usize,
) -> Result<Option<Rewriting>, Missing>
    requires possible { HasVolume working.now }
    requires queue { queue < queues_of working.now.geometry }
    requires file { OfEach working.now (λ v. IsFileOf v found.now.number found.now.inode) }
    requires table { IsHeld (pages_of working.now) (inode_block_of working.now.geometry found.now.number) }
    requires limit { size ≤ 4243456 }
    requires longer { found.now.inode.size ≤ size }
    requires end { at + count ≤ 4243456 }
    ensures number { IfOk result (λ plan. MatchOption plan ⊤ (λ m. (m.file.number ≡ found.now.number)
        × (m.size ≡ size))) }
    ensures ok { IfOk result (λ plan. OfEach working.now
        (λ v. (verdict : Verdict) (rewritten : List ℕ → List ℕ) (bytes : List ℕ)
        → IsRewriting working.now.geometry queue v found.now.number size verdict rewritten bytes
        → MatchOption plan (IsRefused working.now.geometry v verdict NoSpace)
        (PlansRewrite working.now.geometry queue v verdict rewritten))) }
    ensures pages { IfOk result (λ plan. MatchOption plan ⊤
        (HoldsRewrite working.now.geometry (pages_of working.now))) }
    ensures places { IfOk result (λ plan. MatchOption plan ⊤
        (λ m. HoldsPlaces (pages_of working.now) m.file.blocks.items (at / 4096)
        (past_place_of at count))) }
    ensures lack { IfErr result (MissingOf working.now
        (λ v b. LooksLonger working.now.geometry queue v found.now.number size at count b)) }
{
    let need = needs(count_for(found.inode.size), count_for(size));
    let Some(picks) = working.pick(alloc, queue, need)? else {
        return Ok(None);
    };
    let file = working.open_file(alloc, found.number, &found.inode)?;
    let mut wanted = Vec::from_slice(alloc, &picks)?;
    wanted.extend_from_slice(touched(&file.blocks, at, count))?;
    working.look_for_all(alloc, &wanted)?;
    Ok(Some(Rewriting { file, picks, size }))
}

/// Writes bytes at an offset over those in the blocks of a file.
fn overwrite(
    alloc: Global,
    working: &mut Working,
    blocks: &[BlockNo],
    at: usize,
    bytes: &[u8],
) -> Result<(), OutOfMemory>
    requires limit { at + length bytes.now ≤ 4243456 }
    requires inside { (place : ℕ)
        → at / 4096 ≤ place
        → place < past_place_of at (length bytes.now)
        → place < length blocks.now }
    requires held { HoldsPlaces (pages_of working.old) blocks.now (at / 4096)
        (past_place_of at (length bytes.now)) }
    requires apart { AreApart blocks.now }
    ensures over { OnOk result (IsOver working.old working.new) }
    ensures written { OnOk result (IsOverwritten working.old working.new blocks.now at bytes.now
        (past_place_of at (length bytes.now))) }
{
    let end = at + bytes.len();
    for place in at / BLOCK..past_place(at, bytes.len()) {
        let start = BLOCK * place;
        let from = at.max(start);
        let to = end.min(start + BLOCK);
        working.put_bytes(
            alloc,
            blocks[place],
            from - start,
            &bytes[from - at..to - at],
        )?;
    }
    Ok(())
}

/// Carries out what was planned: the file gets the blocks that it needs, the bytes at the offset, and its
/// new size.
pub fn carry_rewrite(
    alloc: Global,
    working: &mut Working,
    at: usize,
    bytes: &[u8],
    rewriting: Rewriting,
) -> Result<(), OutOfMemory>
    requires possible { (q : ℕ)
        × (v : Volume)
        × (verdict : Verdict)
        × (rewritten : List ℕ → List ℕ)
        × Agrees working.old.geometry (pages_of working.old) v
        × (plan : PlansRewrite working.old.geometry q v verdict rewritten rewriting)
        × IsSplicedAt at bytes.now plan.bytes (rewritten plan.bytes) }
    requires pages { HoldsRewrite working.old.geometry (pages_of working.old) rewriting }
    requires places { HoldsPlaces (pages_of working.old) rewriting.file.blocks.items (at / 4096)
        (past_place_of at (length bytes.now)) }
    requires limit { at + length bytes.now ≤ 4243456 }
    requires inside { 1 ≤ length bytes.now → at + length bytes.now ≤ rewriting.size }
    ensures over { OnOk result (IsOver working.old working.new) }
    ensures written { OnOk result ((q : ℕ) (v : Volume) (verdict : Verdict) (rewritten : List ℕ → List ℕ)
        → Agrees working.old.geometry (pages_of working.old) v
        → (plan : PlansRewrite working.old.geometry q v verdict rewritten rewriting)
        → IsSplicedAt at bytes.now plan.bytes (rewritten plan.bytes)
        → Becomes working.old.geometry v
        (resized working.old.geometry q v rewriting.file.number
        (rewritten plan.bytes)) working.old working.new) }
{
    let Rewriting {
        mut file,
        picks,
        size,
    } = rewriting;
    working.grow(alloc, &mut file, &picks)?;
    overwrite(alloc, working, &file.blocks, at, bytes)?;
    if file.inode.size == size {
        return Ok(());
    }
    file.inode.size = size;
    working.put_inode(alloc, file.number, &file.inode)
}

/// Writes bytes at an offset of a file.
pub fn write(
    alloc: Global,
    working: &mut Working,
    queue: QueueNo,
    path: &Path,
    at: u64,
    bytes: &[u8],
) -> Result<Reply, Missing>
    requires possible { HasVolume working.old }
    requires queue { queue < queues_of working.old.geometry }
    requires names { list_all is_name path.now ≡ true }
    ensures bytes { AreBytes bytes.now }
    ensures over { OnOk result (IsOver working.old working.new) }
    ensures ok { IfOk result (λ reply. OfEach working.old
        (λ v. ComesTo working.old.geometry v
        (write_of working.old.geometry queue v at bytes.now
        (target_of v (way path.now))) reply working.old working.new)) }
    ensures lack { IfErr result (MissingOf working.old
        (λ v b. LooksAt working.old.geometry queue v (Write path.now at bytes.now) b)) }
{
    let found = match find_file(alloc, working, path)? {
        Ok(found) => found,
        Err(fault) => return Ok(Reply::Refused(fault)),
    };
    let count = bytes.len();
    if at.saturating_add(count as u64) > FILE_LIMIT {
        return Ok(Reply::Refused(Fault::TooBig));
    }
    let size = size_after(found.inode.size, at, count as u64);
    match plan_longer(alloc, working, queue, &found, size, at as usize, count)? {
        Some(rewriting) => carry_rewrite(alloc, working, at as usize, bytes, rewriting)?,
        None => return Ok(Reply::Refused(Fault::NoSpace)),
    }
    Ok(Reply::Ok)
}
