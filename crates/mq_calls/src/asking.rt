// The call of a session that only reads.
ghost use Rattle.std.specs.Prelude.{◌≡◌, ◌<◌, ◌≤◌, ◌+◌, ◌^◌, ◌↔◌, ℕ, false, IfErr, IfNone, IfOk, IfSome, length};
ghost use Rattle.std.specs.List.{All};
ghost use Rattle.mq_tree.specs.Requests.{is_change};
ghost use Rattle.mq_turns.specs.AtDesk.{AtDesk, view};
ghost use Rattle.mq_calls.specs.Acts.{GoesOn, ReadsOnly};
ghost use Rattle.mq_calls.specs.Asking.{IsFirstChange, IsNotAnswered, refusal_at};
ghost use Rattle.mq_calls.specs.Sessions.{IsReady};

use crate::answers::Answer;
use crate::session::{Mqfs, Session};
use mq_blocks::OutOfMemory;
use mq_drive::Port;
use mq_queue_side::{CallCause, Refusal};
use mq_sessions::{CALL_LIMIT, ask};
use mq_tree::{Request, changes};
use std::alloc::Global;
use std::sync::Wait;

// The first request that may change the tree, counted from 0.
fn first_change(requests: &[Request]) -> Option<u32>
    requires { length requests.now < 2 ^ 32 }
    ensures some { IfSome result (λ index. IsFirstChange requests.now index) }
    ensures none { IfNone result (All (λ r. is_change r ≡ false) requests.now) }
{
    let index = requests.iter().position(|request| changes(request))?;
    Some(index as u32)
}

impl<P: Port + Drop> Mqfs<P> {
    /// Executes a group of requests none of which may change the tree. It is read at the newest number that
    /// the session finds: the replies are those of the volume that all groups drawn up to there have left,
    /// including groups that a power cut may still undo. If a request may change the tree, the call is
    /// refused at once, and the only change to the session is that it has made one more call.
    pub fn ask<R: Wait>(
        &self,
        rt: &R,
        alloc: Global,
        session: &mut Session<P>,
        requests: &[Request],
    ) -> Result<Answer, Refusal>
        requires desk { AtDesk self.now.desk session.old.chair }
        requires ready { IsReady self.now.geometry session.old.queue session.old.calls session.old.held
            (view session.old.chair) }
        requires few { length requests.now < 2 ^ 32 }
        ensures desk { AtDesk self.now.desk session.new.chair }
        ensures ready { IsReady self.now.geometry session.new.queue session.new.calls session.new.held
            (view session.new.chair) }
        ensures queue { session.new.queue ≡ session.old.queue }
        ensures answered { IfOk result (λ a. (a.drew ≡ false) × ReadsOnly
            (record { session = session.old.queue; count = session.old.calls; durable = false; requests = requests.now })
            a.replies.items a.at (view session.old.chair) (view session.new.chair)) }
        ensures refused { IfErr result (λ r. IsNotAnswered requests.now
            (view session.old.chair) (view session.new.chair) r.cause r.drawn) }
        ensures changes { (i : ℕ) → IsFirstChange requests.now i ↔ (result ≡ Err (refusal_at i)) }
        ensures kept { (i : ℕ) → IsFirstChange requests.now i
            → session.new ≡ record session.old { calls = session.new.calls } }
        ensures goes { GoesOn (view session.old.chair) (view session.new.chair) }
        ensures calls { session.old.calls < CALL_LIMIT → session.new.calls ≡ session.old.calls + 1 }
        ensures limit { CALL_LIMIT ≤ session.old.calls → session.new ≡ session.old }
    {
        if let Some(index) = first_change(requests) {
            session.count_call();
            return Err(Refusal {
                cause: CallCause::Changes { index },
                drawn: None,
            });
        }
        match ask(rt, alloc, &self.desk, self.geometry, session, requests) {
            Ok(answer) => Ok(answer),
            Err(OutOfMemory) => Err(Refusal {
                cause: CallCause::OutOfMemory,
                drawn: None,
            }),
        }
    }
}
