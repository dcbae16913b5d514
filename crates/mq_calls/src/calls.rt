// The calls of a session that change the file system.
ghost use Rattle.std.specs.Prelude.{◌≡◌, ◌+◌, ◌<◌, IfErr, IfOk, true, false};
ghost use Rattle.mq_turns.specs.AtDesk.{AtDesk, view};
ghost use Rattle.mq_calls.specs.Acts.{GoesOn, HasActed, HasNotWaited, IsRefused, cause_as};
ghost use Rattle.mq_calls.specs.Calling.{call_by};
ghost use Rattle.mq_calls.specs.Sessions.{IsReady};
ghost use Rattle.mq_calls.specs.Synchronizing.{IsDurable, IsNotDurable};

use crate::answers::Answer;
use crate::session::{Mqfs, Session};
use mq_drive::Port;
use mq_queue_side::{CallCause, Refusal};
use mq_sessions::{CALL_LIMIT, Gate, RefusalCause, act, act_durably};
use mq_tree::Request;
use std::alloc::Global;
use std::sync::Wait;

// The cause of a refusal, as the file system names it.
fn cause_for(cause: RefusalCause) -> CallCause
    ensures { result ≡ cause_as cause }
{
    match cause {
        RefusalCause::OutOfMemory => CallCause::OutOfMemory,
        RefusalCause::TooLarge { count, limit } => CallCause::TooLarge { count, limit },
        RefusalCause::Drive(cause) => CallCause::Drive(cause),
    }
}

// How a file system refuses a group that its session refused.
fn refused(refusal: mq_sessions::Refusal) -> Refusal
    ensures { result ≡ record { cause = cause_as refusal.cause; drawn = refusal.drawn } }
{
    Refusal {
        cause: cause_for(refusal.cause),
        drawn: refusal.drawn,
    }
}

impl<P: Port + Drop> Mqfs<P> {
    /// Executes a group as one transaction, which a power cut keeps whole or drops whole. It survives once
    /// an `fsync` with a number not below the answer's has succeeded. A group that changes nothing draws no
    /// number; its answer has the number at which it was read. If the journal area of the queue has too
    /// little room for the group, a checkpoint is made first.
    pub fn fatomic<R: Wait, G: Gate>(
        &self,
        rt: &R,
        alloc: Global,
        session: &mut Session<P>,
        requests: &[Request],
        gate: &G,
    ) -> Result<Answer, Refusal>
        requires desk { AtDesk self.now.desk session.old.chair }
        requires ready { IsReady self.now.geometry session.old.queue session.old.calls session.old.held
            (view session.old.chair) }
        ensures desk { AtDesk self.now.desk session.new.chair }
        ensures ready { IsReady self.now.geometry session.new.queue session.new.calls session.new.held
            (view session.new.chair) }
        ensures queue { session.new.queue ≡ session.old.queue }
        ensures calls { session.old.calls < CALL_LIMIT → session.new.calls ≡ session.old.calls + 1 }
        ensures goes { GoesOn (view session.old.chair) (view session.new.chair) }
        ensures acts { IfOk result (λ a. HasActed P.state P.faults self.now.geometry
            (call_by session.old.queue session.old.calls false requests.now) a.at a.drew a.replies.items
            (view session.old.chair) (view session.new.chair)) }
        ensures waits { IfOk result (λ a. HasNotWaited P.state P.faults self.now.geometry
            (call_by session.old.queue session.old.calls false requests.now) a.at a.drew
            (view session.old.chair) (view session.new.chair)) }
        ensures refused { IfErr result (λ r. IsRefused P.state P.faults self.now.geometry
            (call_by session.old.queue session.old.calls false requests.now)
            (view session.old.chair) (view session.new.chair) r.cause r.drawn) }
    {
        let geometry = self.geometry;
        match act(rt, alloc, &self.desk, geometry, session, requests, gate) {
            Ok(answer) => Ok(answer),
            Err(refusal) => Err(refused(refusal)),
        }
    }

    /// Executes a group as `fatomic` does, and waits until every number up to the answer's is done: from
    /// then on all of them survive a power cut, including those of other sessions.
    pub fn fsync<R: Wait, G: Gate>(
        &self,
        rt: &R,
        alloc: Global,
        session: &mut Session<P>,
        requests: &[Request],
        gate: &G,
    ) -> Result<Answer, Refusal>
        requires desk { AtDesk self.now.desk session.old.chair }
        requires ready { IsReady self.now.geometry session.old.queue session.old.calls session.old.held
            (view session.old.chair) }
        ensures desk { AtDesk self.now.desk session.new.chair }
        ensures ready { IsReady self.now.geometry session.new.queue session.new.calls session.new.held
            (view session.new.chair) }
        ensures queue { session.new.queue ≡ session.old.queue }
        ensures calls { session.old.calls < CALL_LIMIT → session.new.calls ≡ session.old.calls + 1 }
        ensures goes { GoesOn (view session.old.chair) (view session.new.chair) }
        ensures durable { IfOk result (λ a. IsDurable P.state P.faults self.now.geometry
            (call_by session.old.queue session.old.calls true requests.now) a.at a.drew a.replies.items
            (view session.old.chair) (view session.new.chair)) }
        ensures refused { IfErr result (λ r. IsNotDurable P.state P.faults self.now.geometry
            (call_by session.old.queue session.old.calls true requests.now)
            (view session.old.chair) (view session.new.chair) r.cause r.drawn) }
    {
        let geometry = self.geometry;
        match act_durably(rt, alloc, &self.desk, geometry, session, requests, gate) {
            Ok(answer) => Ok(answer),
            Err(refusal) => Err(refused(refusal)),
        }
    }
}
