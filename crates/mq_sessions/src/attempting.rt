// The group of a call is run on the pages that it looks at, and committed or read.
ghost use Rattle.std.specs.Prelude.{◌≡◌, ◌<◌, ◌≤◌, IfErr, IfOk, length};
ghost use Rattle.mq_blocks.specs.Geometry.{homes_of, queues_of};
ghost use Rattle.mq_desk_laws.specs.Rule.{shape_of};
ghost use Rattle.mq_journal.specs.Values.{side_values};
ghost use Rattle.mq_turns.specs.AtDesk.{AtDesk, chairs_of, start_of, view};
ghost use Rattle.mq_sessions.specs.Acts.{GoesOn, WaitsForNone};
ghost use Rattle.mq_sessions.specs.Attempts.{Acts};
ghost use Rattle.mq_sessions.specs.Calling.{HasLeft, IsHolding};
ghost use Rattle.mq_sessions.specs.Calls.{IsReady, call_of};
ghost use Rattle.mq_sessions.specs.Committing.{IsMissed};
ghost use Rattle.mq_sessions.specs.Executors.{IsReadOf, IsUndrawn};

use crate::answers::Answer;
use crate::asked::Asked;
use crate::committing::Miss;
use crate::drawing::commit;
use crate::executor::Executor;
use crate::reading::read_group;
use crate::rounds::run_held;
use crate::users::{CALL_LIMIT, User};
use mq_blocks::{Geometry, TxNo};
use mq_drive::Port;
use mq_journal::JournalMachine;
use mq_turns::Desk;
use std::alloc::Global;
use std::sync::Wait;

// Reads a group that is not drawn, at the number that it answers.
fn read_undrawn<P: Port + Drop, G: Executor>(
    alloc: Global,
    desk: &Desk<JournalMachine<P, G>>,
    geometry: Geometry,
    session: &mut User<JournalMachine<P, G>>,
    asked: &Asked<G::Request>,
    done: &G::Done,
) -> Result<TxNo, Miss>
    requires at { AtDesk desk.now session.old.chair }
    requires geometry { shape_of (side_values P.state P.faults) G.group (start_of desk.now) ≡ geometry }
    requires holds { IsHolding P.state P.faults G.group G.calls (start_of desk.now) geometry asked.now
        session.old.held (view session.old.chair) done.now }
    requires undrawn { IsUndrawn geometry (G.calls.writes done.now) (G.calls.frees done.now) }
    ensures at { AtDesk desk.now session.new.chair }
    ensures rests { HasLeft session.old.held session.new.held (view session.old.chair) (view session.new.chair) }
    ensures queue { session.new.queue ≡ session.old.queue }
    ensures calls { session.new.calls ≡ session.old.calls }
    ensures goes { GoesOn (view session.old.chair) (view session.new.chair) }
    ensures read { IfOk result (λ at. IsReadOf G.calls (call_of asked.now) done.now at
        (view session.old.chair) (view session.new.chair)) }
    ensures missed { IfErr result (λ m. IsMissed P.state P.faults G.group G.calls geometry (call_of asked.now)
        (view session.old.chair) (view session.new.chair) m) }
{
    match read_group(
        alloc,
        desk,
        &mut session.chair,
        geometry,
        asked,
        &mut session.held,
        done,
    ) {
        Ok(at) => Ok(at),
        Err(_) => Err(Miss::Memory),
    }
}

// Does a group on the pages that are held, and gives them back: as a commit where it changes something, and
// else as a read.
fn finish<P: Port + Drop, G: Executor, R: Wait>(
    rt: &R,
    alloc: Global,
    desk: &Desk<JournalMachine<P, G>>,
    geometry: Geometry,
    session: &mut User<JournalMachine<P, G>>,
    asked: &Asked<G::Request>,
    done: G::Done,
) -> Result<Answer<G::Reply>, Miss>
    requires at { AtDesk desk.now session.old.chair }
    requires geometry { shape_of (side_values P.state P.faults) G.group (start_of desk.now) ≡ geometry }
    requires pages { length (start_of desk.now).pages ≡ homes_of geometry }
    requires sides { length (start_of desk.now).sides ≡ queues_of geometry }
    requires chairs { chairs_of desk.now ≤ 32 }
    requires holds { IsHolding P.state P.faults G.group G.calls (start_of desk.now) geometry asked.now
        session.old.held (view session.old.chair) done }
    requires limit { asked.now.calls < CALL_LIMIT }
    ensures at { AtDesk desk.now session.new.chair }
    ensures rests { HasLeft session.old.held session.new.held (view session.old.chair) (view session.new.chair) }
    ensures queue { session.new.queue ≡ session.old.queue }
    ensures calls { session.new.calls ≡ session.old.calls }
    ensures goes { GoesOn (view session.old.chair) (view session.new.chair) }
    ensures acts { IfOk result (λ a. Acts G.calls geometry (call_of asked.now) a.at a.drew a.replies.items
        (view session.old.chair) (view session.new.chair)) }
    ensures waits { IfOk result (λ a. WaitsForNone asked.now.queue a.at a.drew
        (view session.old.chair) (view session.new.chair)) }
    ensures seen { IfOk result (λ a. a.at ≤ (view session.new.chair).seen) }
    ensures missed { IfErr result (λ m. IsMissed P.state P.faults G.group G.calls geometry (call_of asked.now)
        (view session.old.chair) (view session.new.chair) m) }
{
    G::done_groups_are_on_maps();
    G::done_groups_rise();
    G::entries_tell();
    if G::writes(&done).is_empty() && G::frees(&done).is_empty() {
        let at = read_undrawn(alloc, desk, geometry, session, asked, &done)?;
        let (replies, _, _) = G::parts(done);
        return Ok(Answer {
            at,
            drew: false,
            replies,
        });
    }
    let limit = geometry.write_limit();
    let count = G::writes(&done).len();
    if count > limit as usize {
        read_undrawn(alloc, desk, geometry, session, asked, &done)?;
        return Err(Miss::Large {
            count: count as u32,
            limit,
        });
    }
    let (at, replies) = commit(
        rt,
        alloc,
        desk,
        &mut session.chair,
        geometry,
        asked,
        &mut session.held,
        done,
        &mut session.plan,
    )?;
    Ok(Answer {
        at,
        drew: true,
        replies,
    })
}

/// Executes the group of a call once: takes the pages that it looks at, runs it, and commits or reads it.
/// All turns are given back.
pub(crate) fn attempt<P: Port + Drop, G: Executor, R: Wait>(
    rt: &R,
    alloc: Global,
    desk: &Desk<JournalMachine<P, G>>,
    geometry: Geometry,
    session: &mut User<JournalMachine<P, G>>,
    asked: &Asked<G::Request>,
) -> Result<Answer<G::Reply>, Miss>
    requires at { AtDesk desk.now session.old.chair }
    requires geometry { shape_of (side_values P.state P.faults) G.group (start_of desk.now) ≡ geometry }
    requires pages { length (start_of desk.now).pages ≡ homes_of geometry }
    requires sides { length (start_of desk.now).sides ≡ queues_of geometry }
    requires chairs { chairs_of desk.now ≤ 32 }
    requires ready { IsReady G.group geometry asked.now.queue asked.now.calls session.old.held
        (view session.old.chair) }
    requires limit { asked.now.calls < CALL_LIMIT }
    ensures at { AtDesk desk.now session.new.chair }
    ensures rests { HasLeft session.old.held session.new.held (view session.old.chair) (view session.new.chair) }
    ensures queue { session.new.queue ≡ session.old.queue }
    ensures calls { session.new.calls ≡ session.old.calls }
    ensures goes { GoesOn (view session.old.chair) (view session.new.chair) }
    ensures acts { IfOk result (λ a. Acts G.calls geometry (call_of asked.now) a.at a.drew a.replies.items
        (view session.old.chair) (view session.new.chair)) }
    ensures waits { IfOk result (λ a. WaitsForNone asked.now.queue a.at a.drew
        (view session.old.chair) (view session.new.chair)) }
    ensures seen { IfOk result (λ a. a.at ≤ (view session.new.chair).seen) }
    ensures missed { IfErr result (λ m. IsMissed P.state P.faults G.group G.calls geometry (call_of asked.now)
        (view session.old.chair) (view session.new.chair) m) }
{
    session.wanted.clear();
    match run_held(
        rt,
        alloc,
        desk,
        &mut session.chair,
        geometry,
        asked.queue,
        asked.requests,
        &mut session.wanted,
        &mut session.held,
    ) {
        Ok(done) => finish(rt, alloc, desk, geometry, session, asked, done),
        Err(_) => Err(Miss::Memory),
    }
}
