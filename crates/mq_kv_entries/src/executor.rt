// How groups of operations are carried out on the pages that a session holds.
ghost use Rattle.std.specs.Prelude.{◌≡◌, []};

use crate::entry::KvEntry;
use crate::outcome::{KvDone, KvOutcome};
use mq_blocks::{BlockNo, Geometry, OutOfMemory, QueueNo};
use mq_desk_laws::JournalValues;
use mq_journal::Groups;
use mq_kv_buckets::{KvOp, KvReply};
use mq_pages::{Held, Write};
use mq_revoke::{Placement, a_plan_meets_the_guard};
use mq_sessions::{Asked, Executor, Outcome, Reads};
use std::alloc::Global;

/// The groups of operations on a key-value store.
pub struct KvGroups;

impl Groups for KvGroups {
    type Entry = KvEntry;

    ghost use Rattle.mq_kv_entries.specs.Group.{store_group};

    ghost group = { store_group };
}

/// A group that was done. It frees no block, since a bucket stays when it gets empty.
#[derive(Drop)]
pub struct KvMade {
    pub done: KvDone,
    pub frees: Vec<BlockNo>,
    ghost none: { frees.items ≡ [] },
}

impl Executor for KvGroups {
    ghost use Rattle.mq_kv_entries.specs.Calls.{store_calls};

    type Request = KvOp;

    type Reply = KvReply;

    type Done = KvMade;

    ghost calls = { store_calls };

    fn run(
        alloc: Global,
        geometry: Geometry,
        queue: QueueNo,
        requests: &[KvOp],
        held: &Held,
    ) -> Result<Outcome<KvMade>, OutOfMemory> {
        let _ = queue;
        match crate::group::run(alloc, geometry.meta(), requests, held)? {
            KvOutcome::Done(done) => {
                let frees = Vec::new(alloc);
                Ok(Outcome::Done(KvMade { done, frees }))
            }
            KvOutcome::Need(blocks) => Ok(Outcome::Need(blocks)),
        }
    }

    fn undrawn(alloc: Global, asked: &Asked<KvOp>, done: &KvMade) -> Result<KvEntry, OutOfMemory> {
        KvEntry::undrawn(alloc, asked, &done.done)
    }

    fn entry(
        alloc: Global,
        asked: &Asked<KvOp>,
        done: &KvMade,
        plan: &Placement,
        reads: Reads,
    ) -> Result<KvEntry, OutOfMemory> {
        KvEntry::new(alloc, asked, &done.done, plan, reads)
    }

    fn writes(done: &KvMade) -> &[Write] {
        &done.done.writes
    }

    fn frees(done: &KvMade) -> &[BlockNo] {
        &done.frees
    }

    fn parts(done: KvMade) -> (Vec<KvReply>, Vec<Write>, Vec<BlockNo>) {
        let KvMade { done, frees } = done;
        let KvDone { replies, writes } = done;
        (replies, writes, frees)
    }

    fn done_groups_are_on_maps() {}

    fn entries_are_of_calls() {}

    fn answers_are_of_calls() {}

    fn undrawn_groups_fit<J: JournalValues<Entry = KvEntry>>() {}

    fn done_groups_rise() {}

    fn entries_tell() {}

    fn transactions_are_of_sessions() {}

    fn done_groups_may<J: JournalValues<Entry = KvEntry>>() {
        a_plan_meets_the_guard();
    }
}
