// The entry of a group of operations.
ghost use Rattle.std.specs.Prelude.{◌≡◌, IfOk};
ghost use Rattle.mq_kv_entries.specs.Calls.{IsEntryFor};
ghost use Rattle.mq_kv_entries.specs.Entries.{IsAllLogged, placed_by, reads_by};
ghost use Rattle.mq_sessions.specs.Calls.{call_of};

use crate::lists::{KvOps, KvReplies, blocks_of, copy_ops, copy_replies};
use crate::outcome::KvDone;
use mq_blocks::{BlockNo, OutOfMemory};
use mq_kv_buckets::KvOp;
use mq_ledger::Blocks;
use mq_pages::Write;
use mq_revoke::Placement;
use mq_sessions::{Asked, Reads};
use std::alloc::Global;
use std::snapshot::Snapshot;

/// A group of operations as it was drawn, or as it was read: the operations, the replies, and the blocks that
/// it writes.
#[derive(Drop)]
pub struct KvEntry {
    pub session: u32,
    /// The number of the call among those of the session, counted from 0.
    pub call: u64,
    /// Whether the caller waits until the group is done.
    pub durable: bool,
    pub ops: KvOps,
    pub replies: KvReplies,
    /// The buckets that it writes, in rising order. Each is logged.
    pub logged: Blocks,
    // What it writes, what its plan has beside the logged blocks, and what was read before it was planned. All
    // of this exists in proofs only.
    writes: Snapshot<Vec<Write>>,
    direct: Snapshot<Vec<BlockNo>>,
    revoked: Snapshot<Vec<BlockNo>>,
    reads: Snapshot<Option<Reads>>,
}

impl KvEntry {
    /// The entry of a group that was done and is to be drawn, with its writes placed by a plan, which was made
    /// by what the session had read.
    pub fn new(
        alloc: Global,
        asked: &Asked<KvOp>,
        done: &KvDone,
        plan: &Placement,
        reads: Reads,
    ) -> Result<KvEntry, OutOfMemory>
        ensures entry { IfOk result (λ e. IsEntryFor (call_of asked.now) done.now e) }
        ensures placed { IfOk result (λ e. placed_by e ≡ plan.now) }
        ensures reads { IfOk result (λ e. reads_by e ≡ reads) }
    {
        Ok(KvEntry {
            session: asked.queue.0,
            call: asked.calls,
            durable: asked.durable,
            ops: copy_ops(alloc, asked.requests)?,
            replies: copy_replies(alloc, &done.replies)?,
            logged: Blocks(Vec::from_slice(alloc, &plan.logged)?),
            writes: Snapshot::of(&done.writes),
            direct: Snapshot::of(&plan.direct),
            revoked: Snapshot::of(&plan.revoked),
            reads: Snapshot::of(&Some(reads)),
        })
    }

    /// The entry of a group that was done and is not drawn: it changes nothing, or writes too much. All that
    /// it would write stands as logged.
    pub fn undrawn(
        alloc: Global,
        asked: &Asked<KvOp>,
        done: &KvDone,
    ) -> Result<KvEntry, OutOfMemory>
        ensures entry { IfOk result (λ e. IsEntryFor (call_of asked.now) done.now e) }
        ensures logged { IfOk result IsAllLogged }
    {
        let none = Vec::new(alloc);
        Ok(KvEntry {
            session: asked.queue.0,
            call: asked.calls,
            durable: asked.durable,
            ops: copy_ops(alloc, asked.requests)?,
            replies: copy_replies(alloc, &done.replies)?,
            logged: blocks_of(alloc, &done.writes)?,
            writes: Snapshot::of(&done.writes),
            direct: Snapshot::of(&none),
            revoked: Snapshot::of(&none),
            reads: Snapshot::of(&None),
        })
    }
}
