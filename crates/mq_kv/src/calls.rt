// The calls of a session.
ghost use Rattle.std.specs.Prelude.{◌≡◌, ◌+◌, ◌<◌, IfErr, IfOk};
ghost use Rattle.mq_journal.specs.Raised.{HasRefused, Raises};
ghost use Rattle.mq_kv_entries.specs.Group.{store_group};
ghost use Rattle.mq_kv.specs.Calls.{IsAnswered, IsDenied};
ghost use Rattle.mq_sessions.specs.Acts.{GoesOn};
ghost use Rattle.mq_sessions.specs.Calls.{IsReady};
ghost use Rattle.mq_turns.specs.AtDesk.{AtDesk, view};

use crate::session::{Kv, KvSession};
use mq_blocks::TxNo;
use mq_drive::Port;
use mq_journal::CheckpointRefusal;
use mq_kv_buckets::{KvOp, KvReply};
use mq_sessions::{Answer, CALL_LIMIT, Open, Refusal, RefusalCause, act, act_durably};
use std::alloc::Global;
use std::sync::Wait;

/// A group that was done: the number of its transaction, or that at which it was read; whether it drew that
/// number, which it does if it changed something; and the replies to its operations, in their order.
pub type KvAnswer = Answer<KvReply>;

/// Why a group was refused, with the number that it had drawn.
pub type KvRefusal = Refusal;

/// The cause of a refusal.
pub type KvCause = RefusalCause;

impl<P: Port + Drop> Kv<P> {
    /// Executes a group as one transaction, which a power cut keeps whole or drops whole. Where it is to be
    /// durable, the call waits until every number up to the answer's is done: from then on all of them survive a
    /// power cut, including those of other sessions. A group that changes nothing draws no number; its answer
    /// has the number at which it was read. If the journal area of the queue has too little room for the group,
    /// a checkpoint is made first.
    pub fn commit<R: Wait>(
        &self,
        rt: &R,
        alloc: Global,
        session: &mut KvSession<P>,
        ops: &[KvOp],
        durable: bool,
    ) -> Result<KvAnswer, KvRefusal>
        requires desk { AtDesk self.now.desk session.old.chair }
        requires ready { IsReady store_group self.now.geometry session.old.queue session.old.calls session.old.held
            (view session.old.chair) }
        ensures desk { AtDesk self.now.desk session.new.chair }
        ensures ready { IsReady store_group self.now.geometry session.new.queue session.new.calls session.new.held
            (view session.new.chair) }
        ensures queue { session.new.queue ≡ session.old.queue }
        ensures calls { session.old.calls < CALL_LIMIT → session.new.calls ≡ session.old.calls + 1 }
        ensures goes { GoesOn (view session.old.chair) (view session.new.chair) }
        ensures answered { IfOk result (λ a. IsAnswered P.state P.faults self.now.geometry durable
            session.old.queue session.old.calls ops.now a.at a.drew a.replies.items
            (view session.old.chair) (view session.new.chair)) }
        ensures refused { IfErr result (λ r. IsDenied P.state P.faults self.now.geometry durable
            session.old.queue session.old.calls ops.now
            (view session.old.chair) (view session.new.chair) r.cause r.drawn) }
    {
        if durable {
            act_durably(rt, alloc, &self.desk, self.geometry, session, ops, &Open)
        } else {
            act(rt, alloc, &self.desk, self.geometry, session, ops, &Open)
        }
    }

    /// Makes a checkpoint while other sessions commit: what waits in the journal areas is written home, and the
    /// base is raised to the number that is returned, unless it stands there already. After a refusal this call
    /// has not raised the base, and the session may go on.
    pub fn checkpoint<R: Wait>(
        &self,
        rt: &R,
        alloc: Global,
        session: &mut KvSession<P>,
    ) -> Result<TxNo, CheckpointRefusal>
        requires desk { AtDesk self.now.desk session.old.chair }
        requires ready { IsReady store_group self.now.geometry session.old.queue session.old.calls session.old.held
            (view session.old.chair) }
        ensures desk { AtDesk self.now.desk session.new.chair }
        ensures ready { IsReady store_group self.now.geometry session.new.queue session.new.calls session.new.held
            (view session.new.chair) }
        ensures queue { session.new.queue ≡ session.old.queue }
        ensures calls { session.new.calls ≡ session.old.calls }
        ensures goes { GoesOn (view session.old.chair) (view session.new.chair) }
        ensures raised { IfOk result (λ base. Raises P.state P.faults store_group base
            (view session.old.chair) (view session.new.chair)) }
        ensures refused { IfErr result (λ why. HasRefused P.state P.faults store_group why
            (view session.old.chair) (view session.new.chair)) }
    {
        mq_sessions::checkpoint(rt, alloc, &self.desk, self.geometry, session)
    }
}
