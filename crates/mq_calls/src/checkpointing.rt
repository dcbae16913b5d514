// A checkpoint that a session makes.
ghost use Rattle.std.specs.Prelude.{◌≡◌, IfErr, IfOk};
ghost use Rattle.mq_journal.specs.Raised.{HasRefused, Raises};
ghost use Rattle.mq_calls.specs.Group.{file_group};
ghost use Rattle.mq_turns.specs.AtDesk.{AtDesk, view};
ghost use Rattle.mq_calls.specs.Acts.{GoesOn};
ghost use Rattle.mq_calls.specs.Sessions.{IsReady};

use crate::session::{Mqfs, Session};
use mq_blocks::TxNo;
use mq_drive::Port;
use mq_journal::CheckpointRefusal;
use mq_sessions::checkpoint;
use std::alloc::Global;
use std::sync::Wait;

impl<P: Port + Drop> Mqfs<P> {
    /// Makes a checkpoint while other sessions commit: what waits in the journal areas is written home, and
    /// the base is raised to the number that is returned, unless it stands there already. The areas then
    /// have room for transactions above it. After a refusal this call has not raised the base, and the
    /// session may go on.
    pub fn checkpoint<R: Wait>(
        &self,
        rt: &R,
        alloc: Global,
        session: &mut Session<P>,
    ) -> Result<TxNo, CheckpointRefusal>
        requires desk { AtDesk self.now.desk session.old.chair }
        requires ready { IsReady self.now.geometry session.old.queue session.old.calls session.old.held
            (view session.old.chair) }
        ensures desk { AtDesk self.now.desk session.new.chair }
        ensures ready { IsReady self.now.geometry session.new.queue session.new.calls session.new.held
            (view session.new.chair) }
        ensures queue { session.new.queue ≡ session.old.queue }
        ensures calls { session.new.calls ≡ session.old.calls }
        ensures held { session.new.held ≡ session.old.held }
        ensures goes { GoesOn (view session.old.chair) (view session.new.chair) }
        ensures raised { IfOk result (λ base. Raises P.state P.faults file_group base
            (view session.old.chair) (view session.new.chair)) }
        ensures refused { IfErr result (λ why. HasRefused P.state P.faults file_group why
            (view session.old.chair) (view session.new.chair)) }
    {
        checkpoint(rt, alloc, &self.desk, self.geometry, session)
    }
}
