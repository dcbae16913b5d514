// The sides of queues are drained beside the calls of sessions.
ghost use Rattle.std.specs.Prelude.{◌≡◌, ◌<◌, IfErr, [], length};
ghost use Rattle.mq_blocks.specs.Geometry.{queues_of};
ghost use Rattle.mq_journal.specs.Draining.{RefusesDrain};
ghost use Rattle.mq_turns.specs.AtDesk.{AtDesk, view};
ghost use Rattle.mq_calls.specs.Acts.{GoesOn};
ghost use Rattle.mq_calls.specs.Helpers.{HasSettled, IsAtEase};
ghost use Rattle.mq_calls.specs.Sessions.{IsReady};

use crate::machine::FileMachine;
use crate::session::{Mqfs, Session};
use mq_blocks::{QueueNo, TxNo};
use mq_drive::Port;
use mq_queue_side::Cause;
use mq_sessions::{Aide, settle, settle_own};
use std::sync::Wait;

/// One that drains the sides of queues beside the sessions of a file system, on a thread of its own. It has
/// no queue, and draws and reads nothing.
pub type Helper<P> = Aide<FileMachine<P>>;

impl<P: Port + Drop> Mqfs<P> {
    /// Takes the side of the queue, drains it, stores its mark and gives it back. Returns the last number of
    /// the queue that is done, or 0. It takes no memory.
    pub fn settle<R: Wait>(
        &self,
        rt: &R,
        helper: &mut Helper<P>,
        queue: QueueNo,
    ) -> Result<TxNo, Cause>
        requires desk { AtDesk self.now.desk helper.old.chair }
        requires ready { IsAtEase (view helper.old.chair) }
        requires queue { queue < queues_of self.now.geometry }
        ensures desk { AtDesk self.now.desk helper.new.chair }
        ensures ready { IsAtEase (view helper.new.chair) }
        ensures goes { GoesOn (view helper.old.chair) (view helper.new.chair) }
        ensures settled { HasSettled P.state P.faults queue (view helper.old.chair) (view helper.new.chair)
            result }
        ensures refused { IfErr result (λ c. RefusesDrain queue c (view helper.old.chair)
            (view helper.new.chair)) }
    {
        settle(rt, &self.desk, helper, queue)
    }

    /// Does the same for the session's own queue.
    pub fn settle_own<R: Wait>(&self, rt: &R, session: &mut Session<P>) -> Result<TxNo, Cause>
        requires desk { AtDesk self.now.desk session.old.chair }
        requires ready { IsReady self.now.geometry session.old.queue session.old.calls session.old.held
            (view session.old.chair) }
        ensures desk { AtDesk self.now.desk session.new.chair }
        ensures ready { IsReady self.now.geometry session.new.queue session.new.calls session.new.held
            (view session.new.chair) }
        ensures queue { session.new.queue ≡ session.old.queue }
        ensures calls { session.new.calls ≡ session.old.calls }
        ensures goes { GoesOn (view session.old.chair) (view session.new.chair) }
        ensures settled { HasSettled P.state P.faults session.old.queue (view session.old.chair)
            (view session.new.chair) result }
        ensures refused { IfErr result (λ c. RefusesDrain session.old.queue c (view session.old.chair)
            (view session.new.chair)) }
    {
        settle_own(rt, &self.desk, session)
    }
}
