// What a checkpoint reports of a port.
ghost use Rattle.std.specs.Prelude.{◌<◌, length};
ghost use Rattle.mq_desk_laws.specs.Rule.{IsOfPort};
ghost use Rattle.mq_turns.specs.AtDesk.{AtDesk, view, start_of};
ghost use Rattle.mq_turns.specs.Desk.{slot_of};
ghost use Rattle.mq_turns.specs.Lists.{times};
ghost use Rattle.mq_journal.specs.Ports.{IsCharged, ShowsCharge, charge_of};

use crate::draining::report_of;
use crate::machine::{Groups, JournalMachine};
use mq_drive::Port;
use mq_queue_side::Cause;
use mq_turns::{Chair, Charge, Desk, Item, Turn};

/// Enters a refusal in the account of the port under the turn, and gives the port back. With the report, it
/// must satisfy the rule of the desk, whatever is known by now.
pub(crate) fn report_port<P: Port + Drop, G: Groups>(
    desk: &Desk<JournalMachine<P, G>>,
    chair: &mut Chair<JournalMachine<P, G>>,
    turn: &Turn,
    port: Item<JournalMachine<P, G>>,
    cause: &Cause,
)
    requires at { AtDesk desk.now chair.old }
    requires of_port { IsOfPort (length (start_of desk.now).sides) (charge_of turn.now cause.now) }
    requires holds { 0 < times (slot_of (start_of desk.now) turn.now) (view chair.old).held }
    requires shows { ShowsCharge P.state P.faults G.group (charge_of turn.now cause.now) port
        (view chair.old) }
    ensures at { AtDesk desk.now chair.new }
    ensures reported { IsCharged P.state P.faults G.group (start_of desk.now)
        (charge_of turn.now cause.now) (view chair.old) (view chair.new) }
{
    let report = report_of(cause);
    let charge = Charge {
        port: *turn,
        report,
    };
    desk.charge(chair, &charge);
    desk.give_back(chair, *turn, port);
}
