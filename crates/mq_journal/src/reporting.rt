// What a session reports of the port of a queue's side.
ghost use Rattle.std.specs.Prelude.{◌<◌};
ghost use Rattle.mq_turns.specs.AtDesk.{AtDesk, view, start_of};
ghost use Rattle.mq_turns.specs.Desk.{IsTurn, slot_of};
ghost use Rattle.mq_turns.specs.Lists.{times};
ghost use Rattle.mq_turns.specs.declared.turn.Turn.TheVariants.{Side};
ghost use Rattle.mq_journal.specs.Numbers.{IsReported, ShowsReport};

use crate::machine::{Groups, JournalMachine};
use mq_drive::Port;
use mq_queue_side::QueueSide;
use mq_turns::{Chair, Charge, Desk, Item, Report, Turn};

/// Enters a report in the account of the port of a queue's side, and gives the side back. With the
/// report, the side must satisfy the rule of the desk, whatever is known by now.
pub fn report_side<P: Port + Drop, G: Groups>(
    desk: &Desk<JournalMachine<P, G>>,
    chair: &mut Chair<JournalMachine<P, G>>,
    side: QueueSide<P, G::Entry>,
    report: Report,
)
    requires at { AtDesk desk.now chair.old }
    requires turn { IsTurn (start_of desk.now) (Side side.pmr.queue) }
    requires holds { 0 < times (slot_of (start_of desk.now) (Side side.pmr.queue)) (view chair.old).held }
    requires shows { ShowsReport P.state P.faults G.group side.pmr.queue report side (view chair.old) }
    ensures at { AtDesk desk.now chair.new }
    ensures reported { IsReported P.state P.faults G.group (start_of desk.now) side.pmr.queue report
        (view chair.old) (view chair.new) }
{
    let queue = side.queue();
    let charge = Charge {
        port: Turn::Side(queue),
        report,
    };
    desk.charge(chair, &charge);
    desk.give_back(chair, Turn::Side(queue), Item::Side(side));
}
