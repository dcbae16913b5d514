// The calls of a session that change something.
ghost use Rattle.std.specs.Prelude.{◌≡◌, ◌+◌, ◌<◌, ◌≤◌, IfErr, IfOk, OnOk, [], None, false, length, true};
ghost use Rattle.mq_blocks.specs.Geometry.{homes_of, queues_of};
ghost use Rattle.mq_desk_laws.specs.Rule.{shape_of};
ghost use Rattle.mq_journal.specs.Sweeping.{HasSwept};
ghost use Rattle.mq_journal.specs.Values.{side_values};
ghost use Rattle.mq_turns.specs.AtDesk.{AtDesk, chairs_of, start_of, view};
ghost use Rattle.mq_sessions.specs.Acts.{GoesOn};
ghost use Rattle.mq_sessions.specs.Attempts.{HasActed, HasNotWaited, IsAreaFull};
ghost use Rattle.mq_sessions.specs.Calling.{refusal_of};
ghost use Rattle.mq_sessions.specs.Calls.{IsReady, call_by, call_of};
ghost use Rattle.mq_sessions.specs.Refusing.{IsRefused, cause_of};
ghost use Rattle.mq_sessions.specs.Synchronizing.{IsDurable, IsNotDurable, WasDrainRefused};

use crate::answers::{Answer, Refusal, RefusalCause};
use crate::asked::Asked;
use crate::attempting::attempt;
use crate::checkpointing::checkpoint;
use crate::committing::Miss;
use crate::executor::Executor;
use crate::gate::{Gate, Point};
use crate::users::{CALL_LIMIT, User};
use mq_blocks::{Geometry, QueueNo};
use mq_drive::Port;
use mq_journal::{CheckpointRefusal, Groups, JournalMachine, drain_all};
use mq_queue_side::Cause;
use mq_turns::Desk;
use std::alloc::Global;
use std::sync::Wait;

// The refusal of a group that draws no number, for this.
fn refused(cause: RefusalCause) -> Refusal
    ensures { result ≡ record { cause = cause; drawn = None } }
{
    Refusal { cause, drawn: None }
}

// How a group that was not done is refused. None is refused because its plan did not fit.
fn refusal_for(miss: Miss) -> Option<Refusal>
    ensures { result ≡ refusal_of miss }
{
    match miss {
        Miss::AreaFull => None,
        Miss::Memory => Some(refused(RefusalCause::OutOfMemory)),
        Miss::Large { count, limit } => Some(refused(RefusalCause::TooLarge { count, limit })),
        Miss::Refused(cause) => Some(refused(RefusalCause::Drive(cause))),
        Miss::Cut(at) => Some(Refusal {
            cause: RefusalCause::Drive(Cause::Off),
            drawn: Some(at),
        }),
    }
}

// What a call answers where its checkpoint was refused.
fn no_room(why: CheckpointRefusal) -> Refusal
    ensures { result ≡ record { cause = cause_of why; drawn = None } }
{
    match why {
        CheckpointRefusal::OutOfMemory => refused(RefusalCause::OutOfMemory),
        CheckpointRefusal::Drive(cause) => refused(RefusalCause::Drive(cause)),
    }
}

// Drains each queue, so that every number up to the answer's is done.
fn drain<P: Port + Drop, G: Groups, A, R: Wait>(
    rt: &R,
    desk: &Desk<JournalMachine<P, G>>,
    geometry: Geometry,
    session: &mut User<JournalMachine<P, G>>,
    answer: &Answer<A>,
) -> Result<(), Refusal>
    requires at { AtDesk desk.now session.old.chair }
    requires sides { length (start_of desk.now).sides ≡ queues_of geometry }
    requires idle { (view session.old.chair).held ≡ [] }
    requires seen { answer.now.at ≤ (view session.old.chair).seen }
    ensures at { AtDesk desk.now session.new.chair }
    ensures queue { session.new.queue ≡ session.old.queue }
    ensures calls { session.new.calls ≡ session.old.calls }
    ensures held { session.new.held ≡ session.old.held }
    ensures goes { GoesOn (view session.old.chair) (view session.new.chair) }
    ensures done { OnOk result (answer.now.at ≤ (view session.new.chair).reading.done) }
    ensures swept { OnOk result (HasSwept P.state P.faults G.group (view session.old.chair)
        (view session.new.chair)) }
    ensures refused { IfErr result (λ r. WasDrainRefused P.state P.faults G.group geometry answer.now.at
        answer.now.drew (view session.old.chair) (view session.new.chair) r.cause r.drawn) }
{
    let queues = geometry.queues();
    match drain_all(rt, desk, &mut session.chair, queues, answer.at) {
        Ok(()) => Ok(()),
        Err(cause) => Err(Refusal {
            cause: RefusalCause::Drive(cause),
            drawn: if answer.drew { Some(answer.at) } else { None },
        }),
    }
}

// Makes room in the journal areas by a checkpoint, and does the group once more: its plan did not fit the
// area of its queue. After the checkpoint no number that the session drew is above the base, so the plan
// fits then.
fn act_again<P: Port + Drop, G: Executor, R: Wait>(
    rt: &R,
    alloc: Global,
    desk: &Desk<JournalMachine<P, G>>,
    geometry: Geometry,
    session: &mut User<JournalMachine<P, G>>,
    asked: &Asked<G::Request>,
) -> Result<Answer<G::Reply>, Refusal>
    requires at { AtDesk desk.now session.old.chair }
    requires geometry { shape_of (side_values P.state P.faults) G.group (start_of desk.now) ≡ geometry }
    requires pages { length (start_of desk.now).pages ≡ homes_of geometry }
    requires sides { length (start_of desk.now).sides ≡ queues_of geometry }
    requires chairs { chairs_of desk.now ≤ 32 }
    requires ready { IsReady G.group geometry asked.now.queue asked.now.calls session.old.held
        (view session.old.chair) }
    requires queue { session.old.queue ≡ asked.now.queue }
    requires calls { session.old.calls ≡ asked.now.calls + 1 }
    requires limit { asked.now.calls < CALL_LIMIT }
    ensures at { AtDesk desk.now session.new.chair }
    ensures ready { IsReady G.group geometry session.new.queue session.new.calls session.new.held
        (view session.new.chair) }
    ensures queue { session.new.queue ≡ session.old.queue }
    ensures calls { session.new.calls ≡ session.old.calls }
    ensures goes { GoesOn (view session.old.chair) (view session.new.chair) }
    ensures acts { IfOk result (λ a. (first : _)
        → IsAreaFull P.state P.faults G.group G.calls geometry (call_of asked.now) first (view session.old.chair)
        → HasActed P.state P.faults G.group G.calls geometry (call_of asked.now) a.at a.drew a.replies.items
        first (view session.new.chair)) }
    ensures waits { IfOk result (λ a. (first : _)
        → IsAreaFull P.state P.faults G.group G.calls geometry (call_of asked.now) first (view session.old.chair)
        → HasNotWaited P.state P.faults G.group G.calls geometry (call_of asked.now) a.at a.drew
        first (view session.new.chair)) }
    ensures seen { IfOk result (λ a. a.at ≤ (view session.new.chair).seen) }
    ensures refused { IfErr result (λ r. (first : _)
        → IsAreaFull P.state P.faults G.group G.calls geometry (call_of asked.now) first (view session.old.chair)
        → IsRefused P.state P.faults G.group G.calls geometry (call_of asked.now)
        first (view session.new.chair) r.cause r.drawn) }
{
    G::answers_are_of_calls();
    match checkpoint(rt, alloc, desk, geometry, session) {
        Ok(_) => match attempt(rt, alloc, desk, geometry, session, asked) {
            Ok(answer) => Ok(answer),
            Err(miss) => match refusal_for(miss) {
                Some(refusal) => Err(refusal),
                None => unreachable!(),
            },
        },
        Err(why) => Err(no_room(why)),
    }
}

// Does a group as the session's next call. Where its plan does not fit the journal area, it makes a
// checkpoint and begins again, once. The answer waits for no drain of the group.
fn carry_out<P: Port + Drop, G: Executor, R: Wait>(
    rt: &R,
    alloc: Global,
    desk: &Desk<JournalMachine<P, G>>,
    geometry: Geometry,
    session: &mut User<JournalMachine<P, G>>,
    requests: &[G::Request],
    durable: bool,
) -> Result<Answer<G::Reply>, Refusal>
    requires at { AtDesk desk.now session.old.chair }
    requires geometry { shape_of (side_values P.state P.faults) G.group (start_of desk.now) ≡ geometry }
    requires pages { length (start_of desk.now).pages ≡ homes_of geometry }
    requires sides { length (start_of desk.now).sides ≡ queues_of geometry }
    requires chairs { chairs_of desk.now ≤ 32 }
    requires ready { IsReady G.group geometry session.old.queue session.old.calls session.old.held
        (view session.old.chair) }
    ensures at { AtDesk desk.now session.new.chair }
    ensures ready { IsReady G.group geometry session.new.queue session.new.calls session.new.held
        (view session.new.chair) }
    ensures queue { session.new.queue ≡ session.old.queue }
    ensures calls { session.old.calls < CALL_LIMIT → session.new.calls ≡ session.old.calls + 1 }
    ensures goes { GoesOn (view session.old.chair) (view session.new.chair) }
    ensures acts { IfOk result (λ a. HasActed P.state P.faults G.group G.calls geometry
        (call_by session.old.queue session.old.calls durable requests.now) a.at a.drew a.replies.items
        (view session.old.chair) (view session.new.chair)) }
    ensures waits { IfOk result (λ a. HasNotWaited P.state P.faults G.group G.calls geometry
        (call_by session.old.queue session.old.calls durable requests.now) a.at a.drew
        (view session.old.chair) (view session.new.chair)) }
    ensures seen { IfOk result (λ a. a.at ≤ (view session.new.chair).seen) }
    ensures refused { IfErr result (λ r. IsRefused P.state P.faults G.group G.calls geometry
        (call_by session.old.queue session.old.calls durable requests.now)
        (view session.old.chair) (view session.new.chair) r.cause r.drawn) }
{
    if session.calls >= CALL_LIMIT {
        return Err(refused(RefusalCause::OutOfMemory));
    }
    G::answers_are_of_calls();
    let asked = Asked {
        queue: session.queue,
        calls: session.calls,
        durable,
        requests,
    };
    session.calls += 1;
    match attempt(rt, alloc, desk, geometry, session, &asked) {
        Ok(answer) => Ok(answer),
        Err(miss) => match refusal_for(miss) {
            Some(refusal) => Err(refusal),
            None => act_again(rt, alloc, desk, geometry, session, &asked),
        },
    }
}

// Passes the gate, where a commit was rung.
fn pass_rung<T: Gate, A>(gate: &T, queue: QueueNo, answer: &Answer<A>) {
    if answer.drew {
        gate.pass(queue.0, Point::Rung);
    }
}

/// Does a group as the session's next call. Where its plan does not fit the journal area, it makes a
/// checkpoint and begins again, once. The answer waits for no drain of the group. The gate is passed once the
/// commit is rung, and before the answer.
pub fn act<P: Port + Drop, G: Executor, R: Wait, T: Gate>(
    rt: &R,
    alloc: Global,
    desk: &Desk<JournalMachine<P, G>>,
    geometry: Geometry,
    session: &mut User<JournalMachine<P, G>>,
    requests: &[G::Request],
    gate: &T,
) -> Result<Answer<G::Reply>, Refusal>
    requires at { AtDesk desk.now session.old.chair }
    requires geometry { shape_of (side_values P.state P.faults) G.group (start_of desk.now) ≡ geometry }
    requires pages { length (start_of desk.now).pages ≡ homes_of geometry }
    requires sides { length (start_of desk.now).sides ≡ queues_of geometry }
    requires chairs { chairs_of desk.now ≤ 32 }
    requires ready { IsReady G.group geometry session.old.queue session.old.calls session.old.held
        (view session.old.chair) }
    ensures at { AtDesk desk.now session.new.chair }
    ensures ready { IsReady G.group geometry session.new.queue session.new.calls session.new.held
        (view session.new.chair) }
    ensures queue { session.new.queue ≡ session.old.queue }
    ensures calls { session.old.calls < CALL_LIMIT → session.new.calls ≡ session.old.calls + 1 }
    ensures goes { GoesOn (view session.old.chair) (view session.new.chair) }
    ensures acts { IfOk result (λ a. HasActed P.state P.faults G.group G.calls geometry
        (call_by session.old.queue session.old.calls false requests.now) a.at a.drew a.replies.items
        (view session.old.chair) (view session.new.chair)) }
    ensures waits { IfOk result (λ a. HasNotWaited P.state P.faults G.group G.calls geometry
        (call_by session.old.queue session.old.calls false requests.now) a.at a.drew
        (view session.old.chair) (view session.new.chair)) }
    ensures seen { IfOk result (λ a. a.at ≤ (view session.new.chair).seen) }
    ensures refused { IfErr result (λ r. IsRefused P.state P.faults G.group G.calls geometry
        (call_by session.old.queue session.old.calls false requests.now)
        (view session.old.chair) (view session.new.chair) r.cause r.drawn) }
{
    let queue = session.queue;
    match carry_out(rt, alloc, desk, geometry, session, requests, false) {
        Ok(answer) => {
            pass_rung(gate, queue, &answer);
            gate.pass(queue.0, Point::Answered);
            Ok(answer)
        }
        Err(refusal) => {
            gate.pass(queue.0, Point::Answered);
            Err(refusal)
        }
    }
}

/// Does a group as `act` does, and waits until every number up to the answer's is done: from then on all of
/// them survive a power cut, including those of other sessions.
pub fn act_durably<P: Port + Drop, G: Executor, R: Wait, T: Gate>(
    rt: &R,
    alloc: Global,
    desk: &Desk<JournalMachine<P, G>>,
    geometry: Geometry,
    session: &mut User<JournalMachine<P, G>>,
    requests: &[G::Request],
    gate: &T,
) -> Result<Answer<G::Reply>, Refusal>
    requires at { AtDesk desk.now session.old.chair }
    requires geometry { shape_of (side_values P.state P.faults) G.group (start_of desk.now) ≡ geometry }
    requires pages { length (start_of desk.now).pages ≡ homes_of geometry }
    requires sides { length (start_of desk.now).sides ≡ queues_of geometry }
    requires chairs { chairs_of desk.now ≤ 32 }
    requires ready { IsReady G.group geometry session.old.queue session.old.calls session.old.held
        (view session.old.chair) }
    ensures at { AtDesk desk.now session.new.chair }
    ensures ready { IsReady G.group geometry session.new.queue session.new.calls session.new.held
        (view session.new.chair) }
    ensures queue { session.new.queue ≡ session.old.queue }
    ensures calls { session.old.calls < CALL_LIMIT → session.new.calls ≡ session.old.calls + 1 }
    ensures goes { GoesOn (view session.old.chair) (view session.new.chair) }
    ensures durable { IfOk result (λ a. IsDurable P.state P.faults G.group G.calls geometry
        (call_by session.old.queue session.old.calls true requests.now) a.at a.drew a.replies.items
        (view session.old.chair) (view session.new.chair)) }
    ensures refused { IfErr result (λ r. IsNotDurable P.state P.faults G.group G.calls geometry
        (call_by session.old.queue session.old.calls true requests.now)
        (view session.old.chair) (view session.new.chair) r.cause r.drawn) }
{
    let queue = session.queue;
    match carry_out(rt, alloc, desk, geometry, session, requests, true) {
        Ok(answer) => {
            pass_rung(gate, queue, &answer);
            let drained = drain(rt, desk, geometry, session, &answer);
            gate.pass(queue.0, Point::Answered);
            match drained {
                Ok(()) => Ok(answer),
                Err(refusal) => Err(refusal),
            }
        }
        Err(refusal) => {
            gate.pass(queue.0, Point::Answered);
            Err(refusal)
        }
    }
}
