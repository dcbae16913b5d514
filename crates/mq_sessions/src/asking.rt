// The call of a session that only reads.
ghost use Rattle.std.specs.Prelude.{◌≡◌, ◌+◌, ◌<◌, ◌≤◌, IfOk, OnErr, false, length};
ghost use Rattle.mq_blocks.specs.Geometry.{homes_of};
ghost use Rattle.mq_desk_laws.specs.Rule.{shape_of};
ghost use Rattle.mq_journal.specs.Values.{side_values};
ghost use Rattle.mq_turns.specs.AtDesk.{AtDesk, start_of, view};
ghost use Rattle.mq_sessions.specs.Acts.{GoesOn, KeepsAll};
ghost use Rattle.mq_sessions.specs.Attempts.{ReadsOnly};
ghost use Rattle.mq_sessions.specs.Calls.{IsReady, call_by};
ghost use Rattle.mq_sessions.specs.Executors.{ChangesNothing};

use crate::answers::Answer;
use crate::asked::Asked;
use crate::executor::Executor;
use crate::reading::read_group;
use crate::rounds::run_held;
use crate::users::{CALL_LIMIT, User};
use mq_blocks::{Geometry, OutOfMemory};
use mq_drive::Port;
use mq_journal::JournalMachine;
use mq_turns::Desk;
use std::alloc::Global;
use std::sync::Wait;

/// Runs a group as the session's next call, which changes nothing whatever pages are held, and reads it at
/// the newest number that the session finds.
pub fn ask<P: Port + Drop, G: Executor, R: Wait>(
    rt: &R,
    alloc: Global,
    desk: &Desk<JournalMachine<P, G>>,
    geometry: Geometry,
    session: &mut User<JournalMachine<P, G>>,
    requests: &[G::Request],
) -> Result<Answer<G::Reply>, OutOfMemory>
    requires at { AtDesk desk.now session.old.chair }
    requires geometry { shape_of (side_values P.state P.faults) G.group (start_of desk.now) ≡ geometry }
    requires pages { length (start_of desk.now).pages ≡ homes_of geometry }
    requires ready { IsReady G.group geometry session.old.queue session.old.calls session.old.held
        (view session.old.chair) }
    requires reads { ChangesNothing G.group G.calls geometry session.old.queue requests.now }
    ensures at { AtDesk desk.now session.new.chair }
    ensures ready { IsReady G.group geometry session.new.queue session.new.calls session.new.held
        (view session.new.chair) }
    ensures queue { session.new.queue ≡ session.old.queue }
    ensures calls { session.old.calls < CALL_LIMIT → session.new.calls ≡ session.old.calls + 1 }
    ensures limit { CALL_LIMIT ≤ session.old.calls → session.new ≡ session.old }
    ensures goes { GoesOn (view session.old.chair) (view session.new.chair) }
    ensures answered { IfOk result (λ a. (a.drew ≡ false) × ReadsOnly G.calls
        (call_by session.old.queue session.old.calls false requests.now) a.replies.items a.at
        (view session.old.chair) (view session.new.chair)) }
    ensures refused { OnErr result (KeepsAll (view session.old.chair) (view session.new.chair)) }
{
    if session.calls >= CALL_LIMIT {
        return Err(OutOfMemory);
    }
    G::entries_tell();
    let asked = Asked {
        queue: session.queue,
        calls: session.calls,
        durable: false,
        requests,
    };
    session.calls += 1;
    session.wanted.clear();
    let done = run_held(
        rt,
        alloc,
        desk,
        &mut session.chair,
        geometry,
        asked.queue,
        requests,
        &mut session.wanted,
        &mut session.held,
    )?;
    let at = read_group(
        alloc,
        desk,
        &mut session.chair,
        geometry,
        &asked,
        &mut session.held,
        &done,
    )?;
    let (replies, _, _) = G::parts(done);
    Ok(Answer {
        at,
        drew: false,
        replies,
    })
}
