// The machine of a file system.
use crate::entry::FileEntry;
use crate::entry_laws::a_done_group_may_be_drawn;
use mq_blocks::{BlockNo, Geometry, OutOfMemory, QueueNo};
use mq_desk_laws::JournalValues;
use mq_exec::{Done, View};
use mq_journal::{Groups, JournalMachine};
use mq_pages::{Held, Write};
use mq_revoke::Placement;
use mq_sessions::{Asked, Executor, Outcome, Reads};
use mq_tree::{Reply, Request};
use std::alloc::Global;

/// The groups of file requests.
pub struct FileGroups;

impl Groups for FileGroups {
    type Entry = FileEntry;

    ghost use Rattle.mq_calls.specs.Group.{file_group};

    ghost group = { file_group };
}

impl Executor for FileGroups {
    ghost use Rattle.mq_calls.specs.Runs.{file_calls};

    type Request = Request;

    type Reply = Reply;

    type Done = Done;

    ghost calls = { file_calls };

    fn run(
        alloc: Global,
        geometry: Geometry,
        queue: QueueNo,
        requests: &[Request],
        held: &Held,
    ) -> Result<Outcome<Done>, OutOfMemory> {
        match mq_exec::run(alloc, geometry, queue, requests, &View::new(held))? {
            mq_exec::Outcome::Done(done) => Ok(Outcome::Done(done)),
            mq_exec::Outcome::Need(blocks) => Ok(Outcome::Need(blocks)),
        }
    }

    fn undrawn(
        alloc: Global,
        asked: &Asked<Request>,
        done: &Done,
    ) -> Result<FileEntry, OutOfMemory> {
        FileEntry::undrawn(
            alloc,
            asked.queue.0,
            asked.calls,
            asked.durable,
            asked.requests,
            done,
        )
    }

    fn entry(
        alloc: Global,
        asked: &Asked<Request>,
        done: &Done,
        plan: &Placement,
        reads: Reads,
    ) -> Result<FileEntry, OutOfMemory> {
        FileEntry::new(
            alloc,
            asked.queue.0,
            asked.calls,
            asked.durable,
            asked.requests,
            done,
            plan,
            reads,
        )
    }

    fn writes(done: &Done) -> &[Write] {
        &done.writes
    }

    fn frees(done: &Done) -> &[BlockNo] {
        &done.frees
    }

    fn parts(done: Done) -> (Vec<Reply>, Vec<Write>, Vec<BlockNo>) {
        let Done {
            replies,
            writes,
            frees,
        } = done;
        (replies, writes, frees)
    }

    fn done_groups_are_on_maps() {}

    fn entries_are_of_calls() {}

    fn answers_are_of_calls() {}

    fn undrawn_groups_fit<J: JournalValues<Entry = FileEntry>>() {}

    fn done_groups_rise() {}

    fn entries_tell() {}

    fn transactions_are_of_sessions() {}

    fn done_groups_may<J: JournalValues<Entry = FileEntry>>() {
        a_done_group_may_be_drawn();
    }
}

/// The machine of a file system over ports of this kind: pages are cells of home blocks, sides those of
/// queues, and entries groups of file requests.
pub type FileMachine<P> = JournalMachine<P, FileGroups>;
