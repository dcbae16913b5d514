// What a session knows of a side that it holds, from step to step.
ghost use Rattle.mq_journal.specs.Laws.{SidesStayAtTake, SidesStayAtGiveBack, SidesStayAtReads};
ghost use Rattle.mq_journal.specs.Laws.{NumberedSidesStay, PreparedSidesStay};
ghost use Rattle.mq_journal.specs.Laws.{HeldSidesAreCurrent, KeptFailuresShow, SendsOutliveRest};

use crate::machine::Groups;
use mq_drive::Port;
use mq_queue_side::QueueSide;

/// A session that holds the side of a queue holds it as it was while it takes and gives back the turns of
/// other slots, while it reads words of the desk, and while a commit is prepared on the side.
pub fn a_held_side_stays<P: Port + Drop, G: Groups>(side: &QueueSide<P, G::Entry>)
    ensures take { SidesStayAtTake P.state P.faults G.group side.now }
    ensures back { SidesStayAtGiveBack P.state P.faults G.group side.now }
    ensures reads { SidesStayAtReads P.state P.faults G.group side.now }
    ensures prepared { PreparedSidesStay P.state P.faults G.group side.now }
    ensures numbered { NumberedSidesStay P.state P.faults G.group side.now }
{
    let _ = side;
}

/// Whatever is known by now, a side that a session holds is what the rule says.
pub fn a_held_side_is_current<P: Port + Drop, G: Groups>(side: &QueueSide<P, G::Entry>)
    ensures { HeldSidesAreCurrent P.state P.faults G.group side.now }
{
    let _ = side;
}

/// A session that holds a side on which a failure is kept may report it of the port, as one that stopped
/// the queue: no call on the side has to fail for that.
pub fn a_kept_failure_is_shown<P: Port + Drop, G: Groups>(side: &QueueSide<P, G::Entry>)
    ensures { KeptFailuresShow P.state P.faults G.group side.now }
{
    let _ = side;
}

/// Between a draw and its send a session may give back all other turns: the commit may be sent as before.
pub fn a_send_outlives_the_rest<P: Port + Drop, G: Groups>(side: &QueueSide<P, G::Entry>)
    ensures { SendsOutliveRest P.state P.faults G.group side.now }
{
    let _ = side;
}
