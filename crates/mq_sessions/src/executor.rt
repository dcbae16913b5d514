// How groups of requests of one kind are carried out on the pages that a session holds.
use crate::asked::Asked;
use crate::reads::Reads;
use mq_blocks::{BlockNo, Geometry, OutOfMemory, QueueNo};
use mq_desk_laws::JournalValues;
use mq_journal::Groups;
use mq_pages::{Held, Write};
use mq_revoke::Placement;
use std::alloc::Global;

/// A group that was done, or the pages that it misses.
#[derive(Drop)]
pub enum Outcome<D> {
    Done(D),
    /// Absent pages, at least one, in rising order of blocks.
    Need(Vec<BlockNo>),
}

/// The requests of groups of one kind, and how such a group is carried out.
pub trait Executor: Groups {
    ghost use Rattle.std.specs.Prelude.{◌≡◌, ◌<◌, IfOk};
    ghost use Rattle.mq_blocks.specs.Geometry.{queues_of};
    ghost use Rattle.mq_sessions.specs.Executors.{AnswersAreOfCalls, Answers, CallView, DoneGroupsAreOnMaps, DoneGroupsMay, DoneGroupsRise, EntriesAreOfCalls, EntriesTell, IsPossible, UndrawnGroupsFit};
    ghost use Rattle.mq_sessions.specs.Calls.{call_of};

    type Request;

    type Reply: Drop;

    /// What a group came to: its replies, and what it writes and frees.
    type Done: Drop;

    /// What a group and its outcome mean.
    ghost calls: { CallView Self.Entry Self.Request Self.Reply Self.Done };

    /// What a group of the session of this queue comes to on held pages, which are those of some map on which
    /// groups run.
    fn run(
        alloc: Global,
        geometry: Geometry,
        queue: QueueNo,
        requests: &[Self::Request],
        held: &Held,
    ) -> Result<Outcome<Self::Done>, OutOfMemory>
        requires possible { IsPossible Self.group.good geometry held.now.cells }
        requires queue { queue < queues_of geometry }
        ensures { IfOk result (Answers calls geometry queue held.now.cells requests.now) };

    /// The entry of a group that was done and is not drawn.
    fn undrawn(
        alloc: Global,
        asked: &Asked<Self::Request>,
        done: &Self::Done,
    ) -> Result<Self::Entry, OutOfMemory>
        ensures entry { IfOk result (λ e. calls.entry_for (call_of asked.now) done.now e) }
        ensures undrawn { IfOk result (λ e. calls.undrawn e) };

    /// The entry of a group that was done and is to be drawn, with its writes placed by a plan, which was made
    /// by what the session had read.
    fn entry(
        alloc: Global,
        asked: &Asked<Self::Request>,
        done: &Self::Done,
        plan: &Placement,
        reads: Reads,
    ) -> Result<Self::Entry, OutOfMemory>
        ensures entry { IfOk result (λ e. calls.entry_for (call_of asked.now) done.now e) }
        ensures placed { IfOk result (λ e. calls.placed e ≡ plan.now) }
        ensures reads { IfOk result (λ e. calls.reads e ≡ reads) };

    /// What the group writes.
    fn writes(done: &Self::Done) -> &[Write]
        ensures { result.now ≡ calls.writes done.now };

    /// What it frees.
    fn frees(done: &Self::Done) -> &[BlockNo]
        ensures { result.now ≡ calls.frees done.now };

    /// Its replies, what it writes, and what it frees.
    fn parts(done: Self::Done) -> (Vec<Self::Reply>, Vec<Write>, Vec<BlockNo>)
        ensures replies { result.0.items ≡ calls.replies done }
        ensures writes { result.1.items ≡ calls.writes done }
        ensures frees { result.2.items ≡ calls.frees done };

    /// The law: a group that is done on held pages is so done on the map whose pages these are.
    fn done_groups_are_on_maps()
        ensures { DoneGroupsAreOnMaps calls Self.group.good };

    /// The law: an entry is of the session that called, and of its place among the session's calls.
    fn entries_are_of_calls()
        ensures { EntriesAreOfCalls Self.group calls };

    /// The law: an entry of a call with these replies is so as well.
    fn answers_are_of_calls()
        ensures { AnswersAreOfCalls Self.group calls };

    /// The law of a desk over ports of any kind: a group that is not drawn may be read.
    fn undrawn_groups_fit<J: JournalValues<Entry = Self::Entry>>()
        ensures { UndrawnGroupsFit J.values Self.group calls };

    /// The law: what a group writes, it writes by rising home block.
    fn done_groups_rise()
        ensures { DoneGroupsRise Self.group calls };

    /// The law: an entry says what its group came to.
    fn entries_tell()
        ensures { EntriesTell Self.group calls };

    /// The law of a desk over ports of any kind: a group that is done and placed may be drawn.
    fn done_groups_may<J: JournalValues<Entry = Self::Entry>>()
        ensures { DoneGroupsMay J.values Self.group calls };

    /// The law: the transaction of an entry is of the queue of its session.
    fn transactions_are_of_sessions()
        ensures { (e : Self.Entry) → (Self.group.tx e).queue ≡ Self.group.session e };
}
