// A checkpoint that a session makes.
ghost use Rattle.std.specs.Prelude.{◌≡◌, IfErr, IfOk, length};
ghost use Rattle.mq_blocks.specs.Geometry.{homes_of, queues_of};
ghost use Rattle.mq_journal.specs.Raised.{HasRefused, Raises};
ghost use Rattle.mq_desk_laws.specs.Rule.{shape_of};
ghost use Rattle.mq_journal.specs.Values.{side_values};
ghost use Rattle.mq_turns.specs.AtDesk.{AtDesk, start_of, view};
ghost use Rattle.mq_sessions.specs.Acts.{GoesOn};
ghost use Rattle.mq_sessions.specs.Calls.{IsReady};

use crate::users::User;
use mq_blocks::{Geometry, TxNo};
use mq_drive::Port;
use mq_journal::{CheckpointRefusal, Groups, JournalMachine};
use mq_turns::Desk;
use std::alloc::Global;
use std::sync::Wait;

/// Makes a checkpoint while other sessions commit: what waits in the journal areas is written home, and the
/// base is raised to the number that is returned, unless it stands there already. The areas then have room
/// for transactions above it. After a refusal this call has not raised the base, and the session may go on.
pub fn checkpoint<P: Port + Drop, G: Groups, R: Wait>(
    rt: &R,
    alloc: Global,
    desk: &Desk<JournalMachine<P, G>>,
    geometry: Geometry,
    session: &mut User<JournalMachine<P, G>>,
) -> Result<TxNo, CheckpointRefusal>
    requires at { AtDesk desk.now session.old.chair }
    requires geometry { shape_of (side_values P.state P.faults) G.group (start_of desk.now) ≡ geometry }
    requires pages { length (start_of desk.now).pages ≡ homes_of geometry }
    requires sides { length (start_of desk.now).sides ≡ queues_of geometry }
    requires ready { IsReady G.group geometry session.old.queue session.old.calls session.old.held
        (view session.old.chair) }
    ensures at { AtDesk desk.now session.new.chair }
    ensures ready { IsReady G.group geometry session.new.queue session.new.calls session.new.held
        (view session.new.chair) }
    ensures queue { session.new.queue ≡ session.old.queue }
    ensures calls { session.new.calls ≡ session.old.calls }
    ensures held { session.new.held ≡ session.old.held }
    ensures goes { GoesOn (view session.old.chair) (view session.new.chair) }
    ensures raised { IfOk result (λ base. Raises P.state P.faults G.group base
        (view session.old.chair) (view session.new.chair)) }
    ensures refused { IfErr result (λ why. HasRefused P.state P.faults G.group why
        (view session.old.chair) (view session.new.chair)) }
{
    mq_journal::checkpoint(rt, alloc, geometry, desk, &mut session.chair)
}
