// The sides of queues are drained beside the calls of sessions.
ghost use Rattle.std.specs.Prelude.{◌≡◌, ◌<◌, IfErr, [], length};
ghost use Rattle.mq_journal.specs.Draining.{RefusesDrain};
ghost use Rattle.mq_turns.specs.AtDesk.{AtDesk, start_of, view};
ghost use Rattle.mq_sessions.specs.Acts.{GoesOn};
ghost use Rattle.mq_sessions.specs.Settling.{HasSettled, OnlyReads};

use crate::users::{Aide, User};
use mq_blocks::{QueueNo, TxNo};
use mq_drive::Port;
use mq_journal::{Groups, JournalMachine};
use mq_queue_side::Cause;
use mq_turns::{Chair, Desk};
use std::sync::Wait;

// Takes the side of the queue, drains it, stores its mark and gives it back.
fn settle_at<P: Port + Drop, G: Groups, R: Wait>(
    rt: &R,
    desk: &Desk<JournalMachine<P, G>>,
    chair: &mut Chair<JournalMachine<P, G>>,
    queue: QueueNo,
) -> Result<TxNo, Cause>
    requires at { AtDesk desk.now chair.old }
    requires queue { queue < length (start_of desk.now).sides }
    requires idle { (view chair.old).held ≡ [] }
    ensures at { AtDesk desk.now chair.new }
    ensures reads { OnlyReads (view chair.old) (view chair.new) }
    ensures goes { GoesOn (view chair.old) (view chair.new) }
    ensures settled { HasSettled P.state P.faults G.group queue (view chair.old) (view chair.new) result }
    ensures refused { IfErr result (λ c. RefusesDrain queue c (view chair.old) (view chair.new)) }
{
    mq_journal::settle(rt, desk, chair, queue)
}

/// Takes the side of the queue, drains it, stores its mark and gives it back. Returns the last number of the
/// queue that is done, or 0. It takes no memory.
pub fn settle<P: Port + Drop, G: Groups, R: Wait>(
    rt: &R,
    desk: &Desk<JournalMachine<P, G>>,
    aide: &mut Aide<JournalMachine<P, G>>,
    queue: QueueNo,
) -> Result<TxNo, Cause>
    requires at { AtDesk desk.now aide.old.chair }
    requires queue { queue < length (start_of desk.now).sides }
    requires idle { (view aide.old.chair).held ≡ [] }
    ensures at { AtDesk desk.now aide.new.chair }
    ensures reads { OnlyReads (view aide.old.chair) (view aide.new.chair) }
    ensures goes { GoesOn (view aide.old.chair) (view aide.new.chair) }
    ensures settled { HasSettled P.state P.faults G.group queue (view aide.old.chair) (view aide.new.chair)
        result }
    ensures refused { IfErr result (λ c. RefusesDrain queue c (view aide.old.chair) (view aide.new.chair)) }
{
    settle_at(rt, desk, &mut aide.chair, queue)
}

/// Does the same for the session's own queue.
pub fn settle_own<P: Port + Drop, G: Groups, R: Wait>(
    rt: &R,
    desk: &Desk<JournalMachine<P, G>>,
    session: &mut User<JournalMachine<P, G>>,
) -> Result<TxNo, Cause>
    requires at { AtDesk desk.now session.old.chair }
    requires queue { session.old.queue < length (start_of desk.now).sides }
    requires idle { (view session.old.chair).held ≡ [] }
    ensures at { AtDesk desk.now session.new.chair }
    ensures queue { session.new.queue ≡ session.old.queue }
    ensures calls { session.new.calls ≡ session.old.calls }
    ensures held { session.new.held ≡ session.old.held }
    ensures reads { OnlyReads (view session.old.chair) (view session.new.chair) }
    ensures goes { GoesOn (view session.old.chair) (view session.new.chair) }
    ensures settled { HasSettled P.state P.faults G.group session.old.queue (view session.old.chair)
        (view session.new.chair) result }
    ensures refused { IfErr result (λ c. RefusesDrain session.old.queue c (view session.old.chair)
        (view session.new.chair)) }
{
    let queue = session.queue;
    settle_at(rt, desk, &mut session.chair, queue)
}
