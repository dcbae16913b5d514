// The entry of a group of requests.
ghost use Rattle.std.specs.Prelude.{◌≡◌, IfOk};
ghost use Rattle.mq_calls.specs.Entries.{IsAllLogged};
ghost use Rattle.mq_calls.specs.Plans.{IsEntryOf};

use crate::lists::{Placed, Replies, Requests, all_logged, copy_plan, copy_replies, copy_requests};
use mq_blocks::{BlockNo, OutOfMemory, TxNo};
use mq_exec::Done;
use mq_pages::Write;
use mq_revoke::Placement;
use mq_sessions::Reads;
use mq_tree::Request;
use std::alloc::Global;
use std::snapshot::Snapshot;

/// A group of requests as it was drawn, or as it was read: the requests, the replies, and where its
/// writes go.
#[derive(Drop)]
pub struct FileEntry {
    pub session: u32,
    /// The number of the call among those of the session, counted from 0.
    pub call: u64,
    /// Whether the caller waits until the group is done.
    pub durable: bool,
    pub requests: Requests,
    pub replies: Replies,
    pub placed: Placed,
    /// The front and the base by which the blocks were placed; zeros for a group that isn't drawn.
    pub reads: Reads,
    /// What it writes and frees. It exists in proofs only.
    pub writes: Snapshot<Vec<Write>>,
    pub frees: Snapshot<Vec<BlockNo>>,
}

// The entry of a group that was done, with its writes placed so.
fn entry_of(
    alloc: Global,
    session: u32,
    call: u64,
    durable: bool,
    requests: &[Request],
    done: &Done,
    placed: Placed,
    reads: Reads,
) -> Result<FileEntry, OutOfMemory>
    ensures entry { IfOk result (λ e. IsEntryOf session requests.now done.now e) }
    ensures placed { IfOk result (λ e. e.placed ≡ placed) }
    ensures reads { IfOk result (λ e. e.reads ≡ reads) }
    ensures call { IfOk result (λ e. e.call ≡ call) }
    ensures durable { IfOk result (λ e. e.durable ≡ durable) }
{
    let requests = copy_requests(alloc, requests)?;
    let replies = copy_replies(alloc, &done.replies)?;
    Ok(FileEntry {
        session,
        call,
        durable,
        requests,
        replies,
        placed,
        reads,
        writes: Snapshot::of(&done.writes),
        frees: Snapshot::of(&done.frees),
    })
}

impl FileEntry {
    /// The entry of a group that was done and is to be drawn, with its writes placed by a plan, which
    /// was made by what the session had read.
    pub fn new(
        alloc: Global,
        session: u32,
        call: u64,
        durable: bool,
        requests: &[Request],
        done: &Done,
        plan: &Placement,
        reads: Reads,
    ) -> Result<FileEntry, OutOfMemory>
        ensures entry { IfOk result (λ e. IsEntryOf session requests.now done.now e) }
        ensures placed { IfOk result (λ e. e.placed ≡ plan.now) }
        ensures reads { IfOk result (λ e. e.reads ≡ reads) }
        ensures call { IfOk result (λ e. e.call ≡ call) }
        ensures durable { IfOk result (λ e. e.durable ≡ durable) }
    {
        let placed = copy_plan(alloc, plan)?;
        entry_of(alloc, session, call, durable, requests, done, placed, reads)
    }

    /// The entry of a group that was done and is not drawn: it changes nothing, or writes too much. All
    /// that it would write stands as logged.
    pub fn undrawn(
        alloc: Global,
        session: u32,
        call: u64,
        durable: bool,
        requests: &[Request],
        done: &Done,
    ) -> Result<FileEntry, OutOfMemory>
        ensures entry { IfOk result (λ e. IsEntryOf session requests.now done.now e) }
        ensures logged { IfOk result IsAllLogged }
        ensures reads { IfOk result (λ e. e.reads ≡ record { front = 0; base = 0 }) }
        ensures call { IfOk result (λ e. e.call ≡ call) }
        ensures durable { IfOk result (λ e. e.durable ≡ durable) }
    {
        let placed = all_logged(alloc, &done.writes)?;
        let reads = Reads {
            front: TxNo(0),
            base: TxNo(0),
        };
        entry_of(alloc, session, call, durable, requests, done, placed, reads)
    }
}
