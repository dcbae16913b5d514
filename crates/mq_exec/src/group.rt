// A group of requests, one after another.
ghost use Rattle.std.specs.Prelude.{◌<◌, IfOk};
ghost use Rattle.std.specs.List.{All};
ghost use Rattle.mq_blocks.specs.Geometry.{queues_of};
ghost use Rattle.mq_exec.specs.Ahead.{IsLacked};
ghost use Rattle.mq_exec.specs.Outcomes.{Answers, NeedsOf};
ghost use Rattle.mq_inodes.specs.Fits.{IsPossible};
ghost use Rattle.mq_inodes.specs.Pages.{held_pages};

use crate::ahead::{look_ahead, may_go_on};
use crate::change::step;
use crate::outcome::{Done, Outcome};
use crate::view::View;
use mq_blocks::{BlockNo, Geometry, OutOfMemory, QueueNo};
use mq_inodes::{Missing, Working};
use mq_tree::Request;
use std::alloc::Global;

/// The requests of a long group.
const LONG: usize = 4;

/// The outcome where a page is missing, and these blocks besides. Each block is named once, in rising
/// order.
fn stopped(lack: Missing, mut ahead: Vec<BlockNo>) -> Result<Outcome, OutOfMemory>
    ensures { IfOk result (NeedsOf lack ahead.items) }
{
    match lack {
        Missing::Need(mut blocks) => {
            blocks.append(&mut ahead)?;
            blocks.sort_unstable();
            blocks.dedup();
            Ok(Outcome::Need(blocks))
        }
        Missing::OutOfMemory => Err(OutOfMemory),
    }
}

/// The other pages that a group misses where this request is the first that misses some. Only long groups
/// are looked through, and only where the pages after that request can be determined.
fn ahead_of(
    alloc: Global,
    geometry: Geometry,
    queue: QueueNo,
    requests: &[Request],
    view: &View,
    request: &Request,
) -> Result<Vec<BlockNo>, OutOfMemory>
    requires possible { IsPossible geometry (held_pages view.now.held.now.cells) }
    requires queue { queue < queues_of geometry }
    ensures { IfOk result (λ lacked. All (IsLacked geometry queue (held_pages view.now.held.now.cells)
        requests.now) lacked.items) }
{
    if requests.len() < LONG || !may_go_on(request) {
        return Ok(Vec::new(alloc));
    }
    look_ahead(alloc, geometry, queue, requests, view)
}

/// The outcome of a group of requests of a session on this queue, on the pages that it finds.
pub fn run(
    alloc: Global,
    geometry: Geometry,
    queue: QueueNo,
    requests: &[Request],
    view: &View,
) -> Result<Outcome, OutOfMemory>
    requires possible { IsPossible geometry (held_pages view.now.held.now.cells) }
    requires queue { queue < queues_of geometry }
    ensures { IfOk result (λ outcome. Answers geometry queue
        (held_pages view.now.held.now.cells) requests.now outcome) }
{
    let mut working = Working::new(alloc, geometry, view.held);
    let mut replies = Vec::with_capacity(alloc, requests.len())?;
    for request in requests {
        match step(alloc, &mut working, queue, request) {
            Ok(reply) => replies.push(reply)?,
            Err(lack) => {
                let ahead = ahead_of(alloc, geometry, queue, requests, view, request)?;
                return stopped(lack, ahead);
            }
        }
    }
    let (writes, frees) = working.difference(alloc)?;
    Ok(Outcome::Done(Done {
        replies,
        writes,
        frees,
    }))
}
