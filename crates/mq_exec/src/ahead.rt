// Which pages a group misses, as far as this can be determined before any of them is there.
ghost use Rattle.std.specs.Prelude.{◌≡◌, ◌<◌, false, true, IfOk, OnOk};
ghost use Rattle.std.specs.List.{All, Contains};
ghost use Rattle.mq_blocks.specs.Geometry.{queues_of};
ghost use Rattle.mq_exec.specs.Ahead.{Adds, AddsOf, GoesOn, IsLacked, IsListed};
ghost use Rattle.mq_exec.specs.Plans.{make_request};
ghost use Rattle.mq_exec.specs.Reads.{LooksAlways};
ghost use Rattle.mq_inodes.specs.Fits.{IsPossible};
ghost use Rattle.mq_inodes.specs.MissingPages.{HasVolume, OfEach};
ghost use Rattle.mq_inodes.specs.Pages.{held_pages, pages_of};
ghost use Rattle.mq_tree.specs.Kept.{HasBytes};
ghost use Rattle.mq_tree.specs.Requests.{is_change, is_named};

use crate::answer::answer;
use crate::change::step;
use crate::make::{carry_make, draft_make, wanted};
use crate::named_inode::is_good_path;
use crate::view::View;
use mq_blocks::{BlockNo, Geometry, OutOfMemory, QueueNo};
use mq_inodes::{Missing, Working};
use mq_tree::{Path, Request, changes};
use std::alloc::Global;

/// Whether the pages after a request with missing pages can be determined.
pub fn may_go_on(request: &Request) -> bool {
    match request {
        Request::Mkdir(_) | Request::Create(_) => true,
        _ => !changes(request),
    }
}

/// Adds the missing pages to a list.
fn list(lack: Missing, lacked: &mut Vec<BlockNo>) -> Result<(), OutOfMemory>
    ensures { OnOk result (IsListed lack lacked.old.items lacked.new.items) }
{
    match lack {
        Missing::Need(mut blocks) => {
            lacked.append(&mut blocks)?;
            Ok(())
        }
        Missing::OutOfMemory => Err(OutOfMemory),
    }
}

/// Lists those of the blocks that are absent.
fn list_absent(
    alloc: Global,
    working: &Working,
    blocks: &[BlockNo],
    lacked: &mut Vec<BlockNo>,
) -> Result<(), OutOfMemory>
    ensures { OnOk result (Adds (pages_of working.now) (Contains blocks.now) lacked.old.items
        lacked.new.items) }
{
    match working.look_for_all(alloc, blocks) {
        Ok(()) => Ok(()),
        Err(lack) => list(lack, lacked),
    }
}

/// Lists the pages that a reading request misses.
fn list_read(
    alloc: Global,
    working: &Working,
    request: &Request,
    lacked: &mut Vec<BlockNo>,
) -> Result<(), OutOfMemory>
    requires possible { HasVolume working.now }
    requires reads { is_change request.now ≡ false }
    ensures { OnOk result (Adds (pages_of working.now)
        (λ b. OfEach working.now (λ v. LooksAlways working.now.geometry v request.now b))
        lacked.old.items lacked.new.items) }
{
    match answer(alloc, working, request) {
        Ok(_) => Ok(()),
        Err(lack) => list(lack, lacked),
    }
}

/// Makes an empty file or directory, and lists the pages that it misses. `false` where the pages after it
/// cannot be determined.
fn make_unseen(
    alloc: Global,
    working: &mut Working,
    queue: QueueNo,
    path: &Path,
    is_directory: bool,
    lacked: &mut Vec<BlockNo>,
) -> Result<bool, OutOfMemory>
    requires possible { HasVolume working.old }
    requires queue { queue < queues_of working.old.geometry }
    ensures adds { IfOk result (λ _. AddsOf working.old queue (make_request is_directory path.now)
        lacked.old.items lacked.new.items) }
    ensures goes { IfOk result (λ goes. goes ≡ true
        → GoesOn queue (make_request is_directory path.now) working.old working.new) }
{
    if !is_good_path(path) {
        return Ok(true);
    }
    let creation = match draft_make(alloc, working, queue, path) {
        Ok(Ok(creation)) => creation,
        Ok(Err(_)) => return Ok(true),
        Err(lack) => {
            list(lack, lacked)?;
            return Ok(false);
        }
    };
    let wanted = wanted(alloc, working.geometry, &creation)?;
    list_absent(alloc, working, &wanted, lacked)?;
    working.note_free(&creation.picks)?;
    carry_make(alloc, working, path, creation, is_directory)?;
    Ok(true)
}

/// Does a request that makes nothing, and lists the pages that it misses. After one that reads, the pages
/// are as before, even if it misses some. `false` where the pages after it cannot be determined.
fn pass(
    alloc: Global,
    working: &mut Working,
    queue: QueueNo,
    request: &Request,
    lacked: &mut Vec<BlockNo>,
) -> Result<bool, OutOfMemory>
    requires possible { HasVolume working.old }
    requires queue { queue < queues_of working.old.geometry }
    ensures bytes { is_named request.now ≡ true → HasBytes request.now }
    ensures adds { IfOk result (λ _. AddsOf working.old queue request.now lacked.old.items lacked.new.items) }
    ensures goes { IfOk result (λ goes. goes ≡ true → GoesOn queue request.now working.old working.new) }
{
    if !changes(request) {
        list_read(alloc, working, request, lacked)?;
        return Ok(true);
    }
    match step(alloc, working, queue, request) {
        Ok(_) => Ok(true),
        Err(lack) => {
            list(lack, lacked)?;
            Ok(false)
        }
    }
}

/// Does one request, and lists the pages that it misses. `false` where the pages after it cannot be
/// determined.
fn go_on(
    alloc: Global,
    working: &mut Working,
    queue: QueueNo,
    request: &Request,
    lacked: &mut Vec<BlockNo>,
) -> Result<bool, OutOfMemory>
    requires possible { HasVolume working.old }
    requires queue { queue < queues_of working.old.geometry }
    ensures bytes { is_named request.now ≡ true → HasBytes request.now }
    ensures adds { IfOk result (λ _. AddsOf working.old queue request.now lacked.old.items lacked.new.items) }
    ensures goes { IfOk result (λ goes. goes ≡ true → GoesOn queue request.now working.old working.new) }
{
    match request {
        Request::Mkdir(path) => make_unseen(alloc, working, queue, path, true, lacked),
        Request::Create(path) => make_unseen(alloc, working, queue, path, false, lacked),
        _ => pass(alloc, working, queue, request, lacked),
    }
}

/// The missing pages at which a group looks: those that its requests miss, up to the first request after
/// which the pages cannot be determined. They can be determined after one that reads, and after one that
/// makes a file or a directory and misses only blocks that it takes, and that of the inode.
pub fn look_ahead(
    alloc: Global,
    geometry: Geometry,
    queue: QueueNo,
    requests: &[Request],
    view: &View,
) -> Result<Vec<BlockNo>, OutOfMemory>
    requires possible { IsPossible geometry (held_pages view.now.held.now.cells) }
    requires queue { queue < queues_of geometry }
    ensures { IfOk result (λ lacked. All (IsLacked geometry queue (held_pages view.now.held.now.cells)
        requests.now) lacked.items) }
{
    let mut working = Working::new(alloc, geometry, view.held);
    let mut lacked = Vec::new(alloc);
    for request in requests {
        if !go_on(alloc, &mut working, queue, request, &mut lacked)? {
            return Ok(lacked);
        }
    }
    Ok(lacked)
}
