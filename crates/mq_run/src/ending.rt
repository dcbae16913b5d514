// The end of a run: a checkpoint where one is asked for, and the desk is closed.
ghost use Rattle.std.specs.Prelude.{◌≡◌, ◌<◌, ◌+◌, ◌++◌, [], ◌∷◌, IfOk, length, map, vec_len};
ghost use Rattle.std.specs.List.{All};
ghost use Rattle.mq_calls.specs.Helpers.{IsAtEase};
ghost use Rattle.mq_calls.specs.Sessions.{IsReady};
ghost use Rattle.mq_calls.specs.Group.{file_group};
ghost use Rattle.mq_notices.specs.Ends.{announced, served_by_helper, served_by_session};
ghost use Rattle.mq_notices.specs.Notices.{Merged};
ghost use Rattle.mq_run.specs.Ending.{HasFinished, HasHeard};
ghost use Rattle.mq_run.specs.Pairs.{AreDone};
ghost use Rattle.mq_run.specs.Runs.{EndsSo, Leaves, track};
ghost use Rattle.mq_tie.specs.Closed.{HasRun};
ghost use Rattle.mq_turns.specs.AtDesk.{AtDesk, chairs_of, start_of, view};

use crate::end::RunEnd;
use crate::halves::Halves;
use crate::lines::{commit_lines, count_all, gather, placements, sort_lines};
use crate::runner::{Assistant, HelperHalf, Pair, Runner, SessionHalf};
use mq_blocks::{OutOfMemory, TxNo};
use mq_calls::{FileEntry, FileMachine, Helper, Mqfs, Session};
use mq_drive::Port;
use mq_journal::CheckpointRefusal;
use mq_notices::close;
use mq_report::{Line, Told};
use mq_tie::{Ended, close_desk};
use mq_turns::Machine;
use std::alloc::Global;
use std::sync::Wait;

// Each other session passes the numbers that it knows to the first one.
fn tell_first<P: Port + Drop>(files: &Mqfs<P>, first: &mut Session<P>, others: &mut [Session<P>])
    requires first { AtDesk files.now.desk first.old.chair
        × IsReady files.now.geometry first.old.queue first.old.calls first.old.held (view first.old.chair) }
    requires others { All (λ s. AtDesk files.now.desk s.chair
        × IsReady files.now.geometry s.queue s.calls s.held (view s.chair)) others.old }
    ensures first { AtDesk files.now.desk first.new.chair
        × IsReady files.now.geometry first.new.queue first.new.calls first.new.held (view first.new.chair) }
    ensures others { All (λ s. AtDesk files.now.desk s.chair
        × IsReady files.now.geometry s.queue s.calls s.held (view s.chair)) others.new }
    ensures views { map (λ s. view s.chair) others.new ≡ map (λ s. view s.chair) others.old }
    ensures heard { HasHeard (map (λ s. view s.chair) others.old)
        (view first.old.chair) (view first.new.chair) }
{
    for at in 0..others.len() {
        files.tell(&mut others[at], first);
    }
}

/// Makes a checkpoint by the first session, if one is asked for. Before that it learns what the other
/// sessions know, so that the base covers every number that was drawn.
pub(crate) fn finish<P: Port + Drop, R: Wait>(
    rt: &R,
    alloc: Global,
    files: &Mqfs<P>,
    sessions: &mut [Session<P>],
    asked: bool,
) -> Option<Result<TxNo, CheckpointRefusal>>
    requires some { 0 < length sessions.old }
    requires sessions { All (λ s. AtDesk files.now.desk s.chair
        × IsReady files.now.geometry s.queue s.calls s.held (view s.chair)) sessions.old }
    ensures sessions { All (λ s. AtDesk files.now.desk s.chair
        × IsReady files.now.geometry s.queue s.calls s.held (view s.chair)) sessions.new }
    ensures many { length sessions.new ≡ length sessions.old }
    ensures finished { HasFinished P.state P.faults asked result
        (map (λ s. view s.chair) sessions.old) (map (λ s. view s.chair) sessions.new) }
{
    if !asked {
        return None;
    }
    match sessions.split_first_mut() {
        Some((first, others)) => {
            tell_first(files, first, others);
            Some(files.checkpoint(rt, alloc, first))
        }
        None => unreachable!(),
    }
}

/// Ends the desk of a file system, all of whose sessions and helpers these are. On out of memory everything
/// is dropped.
pub(crate) fn end_run<P: Port + Drop>(
    alloc: Global,
    files: Mqfs<P>,
    sessions: Vec<Session<P>>,
    helpers: Vec<Helper<P>>,
) -> Result<Ended<P, FileEntry>, OutOfMemory>
    requires sessions { All (λ s. AtDesk files.desk s.chair
        × IsReady files.geometry s.queue s.calls s.held (view s.chair)) sessions.items }
    requires helpers { All (λ h. AtDesk files.desk h.chair × IsAtEase (view h.chair)) helpers.items }
    requires all { vec_len sessions + vec_len helpers ≡ chairs_of files.desk }
    ensures { IfOk result (λ e. HasRun P.state P.faults file_group (start_of files.desk)
        (map (λ s. view s.chair) sessions.items ++ map (λ h. view h.chair) helpers.items) e) }
{
    match files.into_desk(alloc, sessions, helpers) {
        Ok((desk, chairs)) => match close_desk(alloc, desk, chairs) {
            Ok(ended) => Ok(ended),
            Err(_) => Err(OutOfMemory),
        },
        Err(_) => Err(OutOfMemory),
    }
}

// What the sessions of a run leave beside their chairs: what each was answered, the lines of what each read,
// and the numbers of the notices of each.
#[derive(Drop)]
pub(crate) struct Records {
    told: Vec<Vec<Told>>,
    reads: Vec<Vec<Line>>,
    served: Vec<Vec<TxNo>>,
}

/// What is left of a closed desk, and what is reported of it.
pub(crate) fn report_end<P: Port + Drop>(
    alloc: Global,
    ended: Ended<P, FileEntry>,
    records: Records,
    finished: Option<Result<TxNo, CheckpointRefusal>>,
) -> Result<RunEnd<P>, OutOfMemory>
    ensures leaves { IfOk result (λ e. Leaves ended (map (λ t. t.items) records.told.items)
        (map (λ l. l.items) records.reads.items) e) }
    ensures finished { IfOk result (λ e. e.finished ≡ finished) }
    ensures served { IfOk result (λ e. e.served ≡ records.served) }
{
    let Records {
        told,
        reads,
        served,
    } = records;
    let placed = placements(alloc, &ended)?;
    let lines = commit_lines(alloc, &ended, count_all(&reads))?;
    let mut entries = gather(reads, lines)?;
    sort_lines(&mut entries);
    let room = Vec::with_capacity(alloc, count_all(&told))?;
    let answers = gather(told, room)?;
    let next = ended.next;
    let (ports, pages) = ended.into_ports();
    Ok(RunEnd {
        ports,
        entries,
        answers,
        pages,
        placed,
        next,
        finished,
        served,
    })
}

// What the pairs of a run leave: the sessions, the helpers, and what was recorded.
#[derive(Drop)]
struct Played<P: Port + Drop>
where
    FileMachine<P>: Machine,
{
    sessions: Vec<Session<P>>,
    helpers: Vec<Helper<P>>,
    records: Records,
}

// Nothing yet, with room for `count` pairs.
fn make_played<P: Port + Drop>(alloc: Global, count: usize) -> Result<Played<P>, OutOfMemory>
    ensures { IfOk result (λ p. (p.sessions.items ≡ [])
        × (p.helpers.items ≡ [])
        × (p.records.told.items ≡ [])
        × (p.records.reads.items ≡ [])
        × (p.records.served.items ≡ [])) }
{
    Ok(Played {
        sessions: Vec::with_capacity(alloc, count)?,
        helpers: Vec::with_capacity(alloc, count)?,
        records: Records {
            told: Vec::with_capacity(alloc, count)?,
            reads: Vec::with_capacity(alloc, count)?,
            served: Vec::with_capacity(alloc, count)?,
        },
    })
}

// Adds the parts of a pair. Its line is closed.
fn take_pair<P: Port + Drop>(
    played: &mut Played<P>,
    pair: Pair<FileMachine<P>>,
) -> Result<(), OutOfMemory>
    requires { AreDone pair.line pair.session.announcing pair.helper.listening }
    ensures sessions { IfOk result (λ _. played.new.sessions.items ≡ played.old.sessions.items ++ pair.session.runner.user ∷ []) }
    ensures helpers { IfOk result (λ _. played.new.helpers.items ≡ played.old.helpers.items ++ pair.helper.assistant.helper ∷ []) }
    ensures told { IfOk result (λ _. played.new.records.told.items ≡ played.old.records.told.items ++ pair.session.runner.told ∷ []) }
    ensures reads { IfOk result (λ _. played.new.records.reads.items
        ≡ played.old.records.reads.items ++ pair.session.runner.reads ∷ []) }
    ensures served { IfOk result (λ _. map (λ v. v.items) played.new.records.served.items
        ≡ map (λ v. v.items) played.old.records.served.items ++ announced pair.session.announcing ∷ []) }
    ensures once { Merged (served_by_session pair.session.announcing) (served_by_helper pair.helper.listening)
        (announced pair.session.announcing) }
{
    let Halves {
        line,
        session,
        helper,
    } = pair;
    let SessionHalf {
        announcing,
        runner: Runner { user, told, reads },
    } = session;
    let HelperHalf {
        listening,
        assistant: Assistant { helper, .. },
    } = helper;
    let numbers = close(line, announcing, listening);
    played.sessions.push(user)?;
    played.helpers.push(helper)?;
    played.records.told.push(told)?;
    played.records.reads.push(reads)?;
    played.records.served.push(numbers)?;
    Ok(())
}

// The parts of all pairs, in their order.
fn take_apart<P: Port + Drop>(
    alloc: Global,
    pairs: Vec<Pair<FileMachine<P>>>,
) -> Result<Played<P>, OutOfMemory>
    requires { All (λ p. AreDone p.line p.session.announcing p.helper.listening) pairs.items }
    ensures sessions { IfOk result (λ d. d.sessions.items ≡ map (λ p. p.session.runner.user) pairs.items) }
    ensures helpers { IfOk result (λ d. d.helpers.items ≡ map (λ p. p.helper.assistant.helper) pairs.items) }
    ensures told { IfOk result (λ d. d.records.told.items ≡ map (λ p. p.session.runner.told) pairs.items) }
    ensures reads { IfOk result (λ d. d.records.reads.items ≡ map (λ p. p.session.runner.reads) pairs.items) }
    ensures served { IfOk result (λ d. map (λ v. v.items) d.records.served.items
        ≡ map (λ p. announced p.session.announcing) pairs.items) }
    ensures once { IfOk result (λ _. All (λ p. Merged (served_by_session p.session.announcing) (served_by_helper p.helper.listening)
        (announced p.session.announcing)) pairs.items) }
{
    let mut played = make_played(alloc, pairs.len())?;
    for pair in pairs {
        take_pair(&mut played, pair)?;
    }
    Ok(played)
}

/// Ends a run whose sessions have played their scripts, each with its helper beside it. On out of memory
/// everything is dropped.
pub(crate) fn end_scripts<P: Port + Drop, R: Wait>(
    rt: &R,
    alloc: Global,
    files: Mqfs<P>,
    pairs: Vec<Pair<FileMachine<P>>>,
    asked: bool,
) -> Result<RunEnd<P>, OutOfMemory>
    requires some { 0 < vec_len pairs }
    requires sessions { All (λ p. AtDesk files.desk p.session.runner.user.chair
        × IsReady files.geometry p.session.runner.user.queue p.session.runner.user.calls p.session.runner.user.held
        (view p.session.runner.user.chair)) pairs.items }
    requires helpers { All (λ p. AtDesk files.desk p.helper.assistant.helper.chair × IsAtEase (view p.helper.assistant.helper.chair)) pairs.items }
    requires done { All (λ p. AreDone p.line p.session.announcing p.helper.listening) pairs.items }
    requires all { vec_len pairs + vec_len pairs ≡ chairs_of files.desk }
    ensures ends { IfOk result (λ e. EndsSo P.state P.faults (start_of files.desk)
        (map (λ p. track p.session.runner.told.items p.session.runner.reads.items (view p.session.runner.user.chair)
        (announced p.session.announcing) (served_by_session p.session.announcing) (served_by_helper p.helper.listening) (view p.helper.assistant.helper.chair)) pairs.items)
        asked e) }
    ensures served { IfOk result (λ e. map (λ v. v.items) e.served.items
        ≡ map (λ p. announced p.session.announcing) pairs.items) }
    ensures once { IfOk result (λ _. All (λ p. Merged (served_by_session p.session.announcing) (served_by_helper p.helper.listening)
        (announced p.session.announcing)) pairs.items) }
{
    let Played {
        mut sessions,
        helpers,
        records,
    } = take_apart(alloc, pairs)?;
    let finished = finish(rt, alloc, &files, &mut sessions, asked);
    let ended = end_run(alloc, files, sessions, helpers)?;
    report_end(alloc, ended, records, finished)
}
