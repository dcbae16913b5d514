// A session plays groups, one after another.
ghost use Rattle.std.specs.Prelude.{◌≡◌, IfOk};
ghost use Rattle.mq_kv_entries.specs.Group.{store_group};
ghost use Rattle.mq_kv_run.specs.Played.{ArePlayed, IsPlayed, is_off as cuts_off};
ghost use Rattle.mq_sessions.specs.Calls.{IsReady};
ghost use Rattle.mq_turns.specs.AtDesk.{AtDesk, view};

use mq_blocks::OutOfMemory;
use mq_drive::Port;
use mq_kv::{Kv, KvCause, KvSession};
use mq_kv_text::{GroupReport, KvGroup, SyncedGroup};
use std::alloc::Global;
use std::sync::Wait;

// Whether the group was cut off.
fn is_off(report: &GroupReport) -> bool
    ensures { result ≡ cuts_off report.now }
{
    match report {
        GroupReport::Synced(_) => false,
        GroupReport::Large { .. } => false,
        GroupReport::Off => true,
    }
}

// Commits a group durably, and returns what is reported of it.
fn play_group<P: Port + Drop, R: Wait>(
    rt: &R,
    alloc: Global,
    store: &Kv<P>,
    session: &mut KvSession<P>,
    group: &KvGroup,
) -> Result<GroupReport, OutOfMemory>
    requires desk { AtDesk store.now.desk session.old.chair }
    requires ready { IsReady store_group store.now.geometry session.old.queue session.old.calls
        session.old.held (view session.old.chair) }
    ensures desk { AtDesk store.now.desk session.new.chair }
    ensures ready { IsReady store_group store.now.geometry session.new.queue session.new.calls
        session.new.held (view session.new.chair) }
    ensures queue { session.new.queue ≡ session.old.queue }
    ensures played { IfOk result (IsPlayed P.state P.faults store.now.geometry session.old.queue group.now
        (view session.old.chair) (view session.new.chair)) }
{
    match store.commit(rt, alloc, session, &group.0, true) {
        Ok(answer) => Ok(GroupReport::Synced(SyncedGroup {
            replies: answer.replies,
            at: answer.at,
        })),
        Err(refusal) => match refusal.cause {
            KvCause::OutOfMemory => Err(OutOfMemory),
            KvCause::TooLarge { count, .. } => Ok(GroupReport::Large { count }),
            KvCause::Drive(_) => Ok(GroupReport::Off),
        },
    }
}

/// Commits groups one after another, each durably, until one is cut off, and returns what is reported of them.
pub fn play_groups<P: Port + Drop, R: Wait>(
    rt: &R,
    alloc: Global,
    store: &Kv<P>,
    session: &mut KvSession<P>,
    groups: &[KvGroup],
) -> Result<Vec<GroupReport>, OutOfMemory>
    requires desk { AtDesk store.now.desk session.old.chair }
    requires ready { IsReady store_group store.now.geometry session.old.queue session.old.calls
        session.old.held (view session.old.chair) }
    ensures desk { AtDesk store.now.desk session.new.chair }
    ensures ready { IsReady store_group store.now.geometry session.new.queue session.new.calls
        session.new.held (view session.new.chair) }
    ensures played { IfOk result (λ v. ArePlayed P.state P.faults store.now.geometry session.old.queue
        groups.now v.items (view session.old.chair) (view session.new.chair)) }
{
    let mut reports = Vec::with_capacity(alloc, groups.len())?;
    for group in groups {
        let report = play_group(rt, alloc, store, session, group)?;
        let ends = is_off(&report);
        reports.push(report)?;
        if ends {
            return Ok(reports);
        }
    }
    Ok(reports)
}
