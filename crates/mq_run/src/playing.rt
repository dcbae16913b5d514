// A session plays its script: it asks the groups one after another, and announces what it has sent.
ghost use Rattle.std.specs.Prelude.{◌≡◌, ◌↔◌, ◌+◌, ◌<◌, ◌≤◌, ◌^◌, ◌++◌, ℕ, List, [], ◌∷◌, IfErr, IfOk, IsTrue, length, vec_capacity, vec_len};
ghost use Rattle.mq_calls.specs.Acts.{GoesOn};
ghost use Rattle.mq_calls.specs.Sessions.{IsReady};
ghost use Rattle.mq_notices.specs.Ends.{HasFinished, IsOpen, announced, served_by_session};
ghost use Rattle.mq_notices.specs.Notices.{with_number};
ghost use Rattle.mq_turns.specs.AtDesk.{AtDesk, view};
ghost use Rattle.mq_run.specs.Helping.{AreServed};
ghost use Rattle.mq_report.specs.declared.line.Line.{Line};
ghost use Rattle.mq_run.specs.Playing.{AreLines, HasPlayed, HasRoom, IsDone, IsNotDone, IsShort, IsTold, TellsOfChanges, answered, call_at, sent_by, sent_number, told_of};
ghost use Rattle.mq_report.specs.Sessions.{ends_session, is_end};
ghost use Rattle.mq_script.specs.declared.group.End.TheVariants.{Fatomic};

use crate::runner::Runner;
use mq_blocks::{QueueNo, TxNo};
use mq_calls::{Answer, CallCause, FileMachine, Gate, Mqfs, Refusal, Session};
use mq_drive::Port;
use mq_notices::{Line as NoticeLine, SessionEnd};
use mq_report::{Line, Told};
use mq_script::{End, Group, Script};
use std::alloc::Global;
use std::sync::Wait;

// Asks a group as its end says.
fn ask_group<P: Port + Drop, R: Wait, G: Gate>(
    rt: &R,
    alloc: Global,
    files: &Mqfs<P>,
    user: &mut Session<P>,
    group: &Group,
    gate: &G,
) -> Result<Answer, Refusal>
    requires desk { AtDesk files.now.desk user.old.chair }
    requires ready { IsReady files.now.geometry user.old.queue user.old.calls user.old.held (view user.old.chair) }
    requires few { user.old.calls < 2 ^ 32 }
    requires short { length group.now.requests < 2 ^ 32 }
    ensures desk { AtDesk files.now.desk user.new.chair }
    ensures ready { IsReady files.now.geometry user.new.queue user.new.calls user.new.held (view user.new.chair) }
    ensures queue { user.new.queue ≡ user.old.queue }
    ensures calls { user.new.calls ≡ user.old.calls + 1 }
    ensures goes { GoesOn (view user.old.chair) (view user.new.chair) }
    ensures done { IfOk result (λ a. IsDone P.state P.faults files.now.geometry group.now.end
        (call_at user.old.queue user.old.calls group.now) a.at a.drew a.replies.items
        (view user.old.chair) (view user.new.chair)) }
    ensures refused { IfErr result (λ r. IsNotDone P.state P.faults files.now.geometry group.now.end
        (call_at user.old.queue user.old.calls group.now) r
        (view user.old.chair) (view user.new.chair)) }
    ensures changes { TellsOfChanges group.now.end group.now.requests (answered result) }
{
    match group.end {
        End::Fsync => files.fsync(rt, alloc, user, &group.requests, gate),
        End::Fatomic => files.fatomic(rt, alloc, user, &group.requests, gate),
        End::Ask => files.ask(rt, alloc, user, &group.requests),
    }
}

// Whether a refusal for this cause ends the session.
fn stops(cause: CallCause) -> bool
    ensures { result ≡ is_end cause }
{
    match cause {
        CallCause::OutOfMemory => true,
        CallCause::TooLarge { .. } => false,
        CallCause::Changes { .. } => false,
        CallCause::Drive(_) => true,
    }
}

// What is reported of a group that was answered so.
fn tell(session: QueueNo, index: u32, group: &Group, answer: &Result<Answer, Refusal>) -> Told
    ensures { result ≡ told_of session index group.now.end answer.now }
{
    let answer = match answer {
        Ok(answer) => Ok(answer.at),
        Err(refusal) => Err(*refusal),
    };
    Told {
        session: session.0,
        group: index,
        end: group.end,
        answer,
    }
}

// Whether the session ends with it.
fn ends(told: &Told) -> bool
    ensures { result ≡ ends_session told.now.answer }
{
    match told.answer {
        Ok(_) => false,
        Err(refusal) => stops(refusal.cause),
    }
}

// Adds the line of the group, where it was read.
fn add_line(
    reads: &mut Vec<Line>,
    session: QueueNo,
    index: u32,
    group: &Group,
    answer: Result<Answer, Refusal>,
)
    requires room { vec_len reads.old < vec_capacity reads.old }
    ensures read { (more : _) × AreLines session index group.now.end answer more
        × (reads.new.items ≡ reads.old.items ++ more) }
    ensures len { vec_len reads.new ≤ vec_len reads.old + 1 }
    ensures capacity { vec_capacity reads.new ≡ vec_capacity reads.old }
{
    if let Ok(answer) = answer {
        if !answer.drew {
            reads.push_reserved(Line {
                number: answer.at,
                commit: false,
                session: session.0,
                group: index,
                end: group.end,
                replies: answer.replies,
            });
        }
    }
}

// The number that the group has drawn, where it was answered well.
fn sent_number(answer: &Result<Answer, Refusal>) -> Option<TxNo>
    ensures { result ≡ sent_number answer.now }
{
    match answer {
        Ok(answer) if answer.drew => Some(answer.at),
        _ => None,
    }
}

// A session asks a group and keeps the line of what it reads, without taking memory for it. Returns what is
// reported of the group, and the number that it has sent.
fn ask_next<P: Port + Drop, R: Wait, G: Gate>(
    rt: &R,
    alloc: Global,
    files: &Mqfs<P>,
    runner: &mut Runner<FileMachine<P>>,
    index: u32,
    group: &Group,
    gate: &G,
) -> (Told, Option<TxNo>)
    requires desk { AtDesk files.now.desk runner.old.user.chair }
    requires ready { IsReady files.now.geometry runner.old.user.queue runner.old.user.calls runner.old.user.held
        (view runner.old.user.chair) }
    requires calls { runner.old.user.calls ≡ index }
    requires room { vec_len runner.old.reads < vec_capacity runner.old.reads }
    requires short { length group.now.requests < 2 ^ 32 }
    ensures desk { AtDesk files.now.desk runner.new.user.chair }
    ensures ready { IsReady files.now.geometry runner.new.user.queue runner.new.user.calls runner.new.user.held
        (view runner.new.user.chair) }
    ensures queue { runner.new.user.queue ≡ runner.old.user.queue }
    ensures calls { runner.new.user.calls ≡ index + 1 }
    ensures room { (vec_len runner.new.reads ≤ vec_len runner.old.reads + 1)
        × (vec_capacity runner.new.reads ≡ vec_capacity runner.old.reads) }
    ensures told { runner.new.told ≡ runner.old.told }
    ensures read { (more : List Line)
        × IsTold P.state P.faults files.now.geometry runner.old.user.queue index group.now result.0 more
        (view runner.old.user.chair) (view runner.new.user.chair)
        × (runner.new.reads.items ≡ runner.old.reads.items ++ more)
        × (with_number result.1 [] ≡ sent_by result.0.answer more) }
{
    let session = runner.user.queue();
    let answer = ask_group(rt, alloc, files, &mut runner.user, group, gate);
    let told = tell(session, index, group, &answer);
    let sent = sent_number(&answer);
    add_line(&mut runner.reads, session, index, group, answer);
    (told, sent)
}

// Whether the helper is woken after the group. An `fsync` has drained the side itself.
fn wakes(group: &Group) -> bool
    ensures { IsTrue result ↔ (group.now.end ≡ Fatomic) }
{
    matches!(group.end, End::Fatomic)
}

// Announces the number to the helper, if there is one, and wakes it if that is asked for.
fn announce<P: Port + Drop, R: Wait>(
    rt: &R,
    files: &Mqfs<P>,
    line: &NoticeLine,
    announcing: &mut SessionEnd,
    runner: &mut Runner<FileMachine<P>>,
    sent: Option<TxNo>,
    wakes: bool,
)
    requires open { IsOpen line.now announcing.old }
    requires few { length (announced announcing.old) < line.now.count }
    requires desk { AtDesk files.now.desk runner.old.user.chair }
    requires ready { IsReady files.now.geometry runner.old.user.queue runner.old.user.calls runner.old.user.held
        (view runner.old.user.chair) }
    ensures open { IsOpen line.now announcing.new }
    ensures announced { announced announcing.new ≡ announced announcing.old ++ with_number sent [] }
    ensures desk { AtDesk files.now.desk runner.new.user.chair }
    ensures ready { IsReady files.now.geometry runner.new.user.queue runner.new.user.calls runner.new.user.held
        (view runner.new.user.chair) }
    ensures keeps { (runner.new.told ≡ runner.old.told) × (runner.new.reads ≡ runner.old.reads) }
    ensures user { (runner.new.user.queue ≡ runner.old.user.queue)
        × (runner.new.user.calls ≡ runner.old.user.calls) }
    ensures served { (ns : List ℕ)
        × (served_by_session announcing.new ≡ served_by_session announcing.old ++ ns)
        × AreServed P.state P.faults runner.old.user.queue (view runner.old.user.chair) ns
        (view runner.new.user.chair) }
{
    if let Some(number) = sent {
        announcing.announce(rt, line, files, runner, number, wakes);
    }
}

// A session executes the groups of its script one after another, until an answer ends it, and announces
// each number that it has sent.
fn ask_groups<P: Port + Drop, R: Wait, G: Gate>(
    rt: &R,
    alloc: Global,
    files: &Mqfs<P>,
    line: &NoticeLine,
    announcing: &mut SessionEnd,
    runner: &mut Runner<FileMachine<P>>,
    script: &Script,
    gate: &G,
)
    requires desk { AtDesk files.now.desk runner.old.user.chair }
    requires ready { IsReady files.now.geometry runner.old.user.queue runner.old.user.calls runner.old.user.held
        (view runner.old.user.chair) }
    requires calls { runner.old.user.calls ≡ 0 }
    requires room { HasRoom script.now.groups runner.old.told runner.old.reads line.now }
    requires short { IsShort script.now.groups }
    requires open { IsOpen line.now announcing.old }
    requires none { (announced announcing.old ≡ []) × (served_by_session announcing.old ≡ []) }
    ensures desk { AtDesk files.now.desk runner.new.user.chair }
    ensures ready { IsReady files.now.geometry runner.new.user.queue runner.new.user.calls runner.new.user.held
        (view runner.new.user.chair) }
    ensures queue { runner.new.user.queue ≡ runner.old.user.queue }
    ensures open { IsOpen line.now announcing.new }
    ensures played { HasPlayed P.state P.faults files.now.geometry runner.old.user.queue script.now.groups
        runner.new.told.items runner.new.reads.items (announced announcing.new) (served_by_session announcing.new)
        (view runner.old.user.chair) (view runner.new.user.chair) }
{
    for index in 0..script.groups.len() {
        let group = &script.groups[index];
        let (told, sent) = ask_next(rt, alloc, files, runner, index as u32, group, gate);
        runner.told.push_reserved(told);
        if ends(&told) {
            return;
        }
        announce(rt, files, line, announcing, runner, sent, wakes(group));
    }
}

/// A session plays its script, and gives the last notice after it.
pub(crate) fn play<P: Port + Drop, R: Wait, G: Gate>(
    rt: &R,
    alloc: Global,
    files: &Mqfs<P>,
    line: &NoticeLine,
    announcing: &mut SessionEnd,
    runner: &mut Runner<FileMachine<P>>,
    script: &Script,
    gate: &G,
)
    requires desk { AtDesk files.now.desk runner.old.user.chair }
    requires ready { IsReady files.now.geometry runner.old.user.queue runner.old.user.calls runner.old.user.held
        (view runner.old.user.chair) }
    requires calls { runner.old.user.calls ≡ 0 }
    requires room { HasRoom script.now.groups runner.old.told runner.old.reads line.now }
    requires short { IsShort script.now.groups }
    requires open { IsOpen line.now announcing.old }
    requires none { (announced announcing.old ≡ []) × (served_by_session announcing.old ≡ []) }
    ensures desk { AtDesk files.now.desk runner.new.user.chair }
    ensures ready { IsReady files.now.geometry runner.new.user.queue runner.new.user.calls runner.new.user.held
        (view runner.new.user.chair) }
    ensures queue { runner.new.user.queue ≡ runner.old.user.queue }
    ensures finished { HasFinished line.now announcing.new }
    ensures played { HasPlayed P.state P.faults files.now.geometry runner.old.user.queue script.now.groups
        runner.new.told.items runner.new.reads.items (announced announcing.new) (served_by_session announcing.new)
        (view runner.old.user.chair) (view runner.new.user.chair) }
{
    ask_groups(rt, alloc, files, line, announcing, runner, script, gate);
    announcing.finish(rt, line, files, runner);
}
