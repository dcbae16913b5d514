// All sessions play their scripts at once, each with its helper beside it.
ghost use Rattle.std.specs.Prelude.{◌≡◌, ◌<◌, ℕ, [], Some, length, slice_get};
ghost use Rattle.mq_blocks.specs.Geometry.{queues_of};
ghost use Rattle.mq_calls.specs.Helpers.{IsAtEase};
ghost use Rattle.mq_calls.specs.Sessions.{IsReady};
ghost use Rattle.mq_notices.specs.Ends.{HasFinished, HasHelped, IsFresh, IsOpen, announced, served_by_helper, served_by_session};
ghost use Rattle.mq_turns.specs.AtDesk.{AtDesk, view};
ghost use Rattle.mq_run.specs.Helping.{AreServed};
ghost use Rattle.mq_run.specs.Pairs.{AreDone, AreOpen};
ghost use Rattle.mq_run.specs.Playing.{HasPlayed, HasRoom, IsShort};

use crate::halves::{Work, work_both};
use crate::playing::play;
use crate::runner::{HelperHalf, Pair, SessionHalf};
use mq_calls::{FileEntry, FileMachine, FileSystem, Gate, Mqfs, Shaped};
use mq_drive::Port;
use mq_notices::Line as NoticeLine;
use mq_pages::PageCell;
use mq_queue_side::{QueueSide, Root};
use mq_script::Script;
use mq_turns::Machine;
use std::alloc::Global;
use std::sync::Wait;
use std::thread::{Threads, for_each_mut};

/// A machine on whose sessions scripts are played. With this trait the threads are forked over entries of
/// any type, of which they need only that they may be sent to another thread.
trait Scripted: Shaped {
    ghost use Rattle.std.specs.Prelude.{ℕ, List};
    ghost use Rattle.mq_blocks.specs.declared.geometry.Geometry.{Geometry};
    ghost use Rattle.mq_pages.specs.Held.{HeldCells};
    ghost use Rattle.mq_report.specs.declared.line.Line.{Line};
    ghost use Rattle.mq_report.specs.declared.line.Told.{Told};
    ghost use Rattle.mq_script.specs.Scripts.{Group};
    ghost use Rattle.mq_turns.specs.declared.rule.ChairView.{ChairView};

    ghost is_ready: { Geometry → ℕ → ℕ → HeldCells
        → ChairView Self.Page Self.Side Self.Root Self.Entry → Type 0 };

    ghost is_at_ease: { Geometry → ℕ → ChairView Self.Page Self.Side Self.Root Self.Entry → Type 0 };

    ghost has_played: { Geometry → ℕ → List Group → List Told → List Line → List ℕ → List ℕ
        → ChairView Self.Page Self.Side Self.Root Self.Entry
        → ChairView Self.Page Self.Side Self.Root Self.Entry → Type 0 };

    ghost has_served: { ℕ → ChairView Self.Page Self.Side Self.Root Self.Entry → List ℕ
        → ChairView Self.Page Self.Side Self.Root Self.Entry → Type 0 };

    // A session plays the script of its place.
    fn play_at<R: Wait, G: Gate>(
        rt: &R,
        alloc: Global,
        files: &FileSystem<Self>,
        index: usize,
        line: &NoticeLine,
        half: &mut SessionHalf<Self>,
        scripts: &[Script],
        gate: &G,
    )
        requires within { index < length scripts.now }
        requires desk { AtDesk files.now.desk half.old.runner.user.chair }
        requires ready { is_ready files.now.geometry half.old.runner.user.queue half.old.runner.user.calls
            half.old.runner.user.held (view half.old.runner.user.chair)
            × (half.old.runner.user.queue ≡ index)
            × (half.old.runner.user.calls ≡ 0) }
        requires room { (s : _) → slice_get scripts.now index ≡ Some s
            → HasRoom s.groups half.old.runner.told half.old.runner.reads line.now × IsShort s.groups }
        requires opened { IsOpen line.now half.old.announcing
            × (announced half.old.announcing ≡ [])
            × (served_by_session half.old.announcing ≡ []) }
        ensures desk { AtDesk files.now.desk half.new.runner.user.chair }
        ensures ready { is_ready files.now.geometry half.new.runner.user.queue half.new.runner.user.calls
            half.new.runner.user.held (view half.new.runner.user.chair)
            × (half.new.runner.user.queue ≡ index) }
        ensures finished { HasFinished line.now half.new.announcing }
        ensures played { (s : _) → slice_get scripts.now index ≡ Some s
            → has_played files.now.geometry index s.groups half.new.runner.told.items half.new.runner.reads.items
            (announced half.new.announcing) (served_by_session half.new.announcing)
            (view half.old.runner.user.chair) (view half.new.runner.user.chair) };

    // A helper serves the notices of the session of its queue.
    fn help_at<R: Wait>(
        rt: &R,
        files: &FileSystem<Self>,
        line: &NoticeLine,
        half: &mut HelperHalf<Self>,
    )
        requires listening { IsFresh line.now half.old.listening }
        requires desk { AtDesk files.now.desk half.old.assistant.helper.chair }
        requires ease { is_at_ease files.now.geometry half.old.assistant.queue (view half.old.assistant.helper.chair) }
        ensures helped { HasHelped line.now half.new.listening }
        ensures desk { AtDesk files.now.desk half.new.assistant.helper.chair }
        ensures ease { is_at_ease files.now.geometry half.old.assistant.queue (view half.new.assistant.helper.chair) }
        ensures served { has_served half.old.assistant.queue (view half.old.assistant.helper.chair)
            (served_by_helper half.new.listening) (view half.new.assistant.helper.chair) };
}

impl<P: Port + Drop> Scripted for FileMachine<P> {
    ghost use Rattle.std.specs.Prelude.{◌<◌};
    ghost use Rattle.mq_blocks.specs.Geometry.{queues_of};
    ghost use Rattle.mq_calls.specs.Helpers.{IsAtEase};
    ghost use Rattle.mq_calls.specs.Sessions.{IsReady};
    ghost use Rattle.mq_run.specs.Helping.{AreServed};
    ghost use Rattle.mq_run.specs.Playing.{HasPlayed};

    ghost is_ready = { λ g session calls cells v. IsReady g session calls cells v };

    ghost is_at_ease = { λ g queue v. IsAtEase v × (queue < queues_of g) };

    ghost has_played = { λ g session groups told lines sent served v w.
        HasPlayed P.state P.faults g session groups told lines sent served v w };

    ghost has_served = { λ queue v ns w. AreServed P.state P.faults queue v ns w };

    fn play_at<R: Wait, G: Gate>(
        rt: &R,
        alloc: Global,
        files: &FileSystem<FileMachine<P>>,
        index: usize,
        line: &NoticeLine,
        half: &mut SessionHalf<FileMachine<P>>,
        scripts: &[Script],
        gate: &G,
    ) {
        play(
            rt,
            alloc,
            files,
            line,
            &mut half.announcing,
            &mut half.runner,
            &scripts[index],
            gate,
        );
    }

    fn help_at<R: Wait>(
        rt: &R,
        files: &FileSystem<FileMachine<P>>,
        line: &NoticeLine,
        half: &mut HelperHalf<FileMachine<P>>,
    ) {
        half.listening.help(rt, line, files, &mut half.assistant);
    }
}

// Where a session and its helper work: the number of the session, and what all sessions share.
#[derive(Drop)]
struct Place<'a, M: Shaped, G> {
    alloc: Global,
    files: &'a FileSystem<M>,
    index: usize,
    scripts: &'a [Script],
    gate: &'a G,
}

impl<'a, M: Scripted, G: Gate> Work<Place<'a, M, G>> for SessionHalf<M> {
    ghost use Rattle.std.specs.Prelude.{◌≡◌, ◌<◌, [], Some, length, slice_get};
    ghost use Rattle.mq_notices.specs.Ends.{HasFinished, IsOpen, announced, served_by_session};
    ghost use Rattle.mq_turns.specs.AtDesk.{AtDesk, view};
    ghost use Rattle.mq_run.specs.Playing.{HasRoom, IsShort};

    ghost may_work = { λ c l h. (c.index < length c.scripts.now)
        × AtDesk c.files.now.desk h.runner.user.chair
        × M.is_ready c.files.now.geometry h.runner.user.queue h.runner.user.calls h.runner.user.held
        (view h.runner.user.chair)
        × (h.runner.user.queue ≡ c.index)
        × (h.runner.user.calls ≡ 0)
        × ((s : _) → slice_get c.scripts.now c.index ≡ Some s
        → HasRoom s.groups h.runner.told h.runner.reads l × IsShort s.groups)
        × IsOpen l h.announcing
        × (announced h.announcing ≡ [])
        × (served_by_session h.announcing ≡ []) };

    ghost has_worked = { λ c l old new. AtDesk c.files.now.desk new.runner.user.chair
        × M.is_ready c.files.now.geometry new.runner.user.queue new.runner.user.calls new.runner.user.held
        (view new.runner.user.chair)
        × (new.runner.user.queue ≡ c.index)
        × HasFinished l new.announcing
        × ((s : _) → slice_get c.scripts.now c.index ≡ Some s
        → M.has_played c.files.now.geometry c.index s.groups new.runner.told.items new.runner.reads.items
        (announced new.announcing) (served_by_session new.announcing)
        (view old.runner.user.chair) (view new.runner.user.chair)) };

    fn work<R: Wait>(&mut self, rt: &R, context: &Place<'a, M, G>, line: &NoticeLine) {
        M::play_at(
            rt,
            context.alloc,
            context.files,
            context.index,
            line,
            self,
            context.scripts,
            context.gate,
        );
    }
}

impl<'a, M: Scripted, G: Gate> Work<Place<'a, M, G>> for HelperHalf<M> {
    ghost use Rattle.std.specs.Prelude.{◌≡◌};
    ghost use Rattle.mq_notices.specs.Ends.{HasHelped, IsFresh, served_by_helper};
    ghost use Rattle.mq_turns.specs.AtDesk.{AtDesk, view};

    ghost may_work = { λ c l h. IsFresh l h.listening
        × AtDesk c.files.now.desk h.assistant.helper.chair
        × M.is_at_ease c.files.now.geometry h.assistant.queue (view h.assistant.helper.chair)
        × (h.assistant.queue ≡ c.index) };

    ghost has_worked = { λ c l old new. HasHelped l new.listening
        × AtDesk c.files.now.desk new.assistant.helper.chair
        × M.is_at_ease c.files.now.geometry c.index (view new.assistant.helper.chair)
        × M.has_served c.index (view old.assistant.helper.chair) (served_by_helper new.listening)
        (view new.assistant.helper.chair) };

    fn work<R: Wait>(&mut self, rt: &R, context: &Place<'a, M, G>, line: &NoticeLine) {
        M::help_at(rt, context.files, line, self);
    }
}

// A session plays the script of its place, with its helper beside it on a thread of its own where one can be
// made. Where none can, the helper comes after the session: the session never waits for it, but it waits for
// the last notice.
fn play_pair<
    P: Port + Drop + Send,
    E: Drop + Send,
    M: Machine<Page = PageCell, Side = QueueSide<P, E>, Root = Root<P>, Entry = E>
        + Scripted
        + Send,
    R: Threads + Wait + Sync,
    G: Gate + Sync,
>(
    rt: &R,
    alloc: Global,
    files: &FileSystem<M>,
    index: usize,
    pair: &mut Pair<M>,
    scripts: &[Script],
    gate: &G,
)
    requires within { index < length scripts.now }
    requires desk { AtDesk files.now.desk pair.old.session.runner.user.chair
        × AtDesk files.now.desk pair.old.helper.assistant.helper.chair }
    requires ready { M.is_ready files.now.geometry pair.old.session.runner.user.queue pair.old.session.runner.user.calls
        pair.old.session.runner.user.held (view pair.old.session.runner.user.chair)
        × (pair.old.session.runner.user.queue ≡ index)
        × (pair.old.session.runner.user.calls ≡ 0) }
    requires ease { M.is_at_ease files.now.geometry index (view pair.old.helper.assistant.helper.chair)
        × (pair.old.helper.assistant.queue ≡ index) }
    requires room { (s : _) → slice_get scripts.now index ≡ Some s
        → HasRoom s.groups pair.old.session.runner.told pair.old.session.runner.reads pair.old.line × IsShort s.groups }
    requires open { AreOpen pair.old.line pair.old.session.announcing pair.old.helper.listening }
    ensures desk { AtDesk files.now.desk pair.new.session.runner.user.chair
        × AtDesk files.now.desk pair.new.helper.assistant.helper.chair }
    ensures ready { M.is_ready files.now.geometry pair.new.session.runner.user.queue pair.new.session.runner.user.calls
        pair.new.session.runner.user.held (view pair.new.session.runner.user.chair)
        × (pair.new.session.runner.user.queue ≡ index) }
    ensures ease { M.is_at_ease files.now.geometry index (view pair.new.helper.assistant.helper.chair) }
    ensures done { AreDone pair.new.line pair.new.session.announcing pair.new.helper.listening }
    ensures played { (s : _) → slice_get scripts.now index ≡ Some s
        → M.has_played files.now.geometry index s.groups pair.new.session.runner.told.items
        pair.new.session.runner.reads.items (announced pair.new.session.announcing)
        (served_by_session pair.new.session.announcing)
        (view pair.old.session.runner.user.chair) (view pair.new.session.runner.user.chair) }
    ensures served { M.has_served index (view pair.old.helper.assistant.helper.chair)
        (served_by_helper pair.new.helper.listening) (view pair.new.helper.assistant.helper.chair) }
{
    let place = Place {
        alloc,
        files,
        index,
        scripts,
        gate,
    };
    work_both(rt, &place, pair);
}

// Each session plays the script of its place with its helper, on threads of their own where these can be
// made.
fn play_each<
    P: Port + Drop + Send,
    E: Drop + Send,
    M: Machine<Page = PageCell, Side = QueueSide<P, E>, Root = Root<P>, Entry = E>
        + Scripted
        + Send,
    R: Threads + Wait + Sync,
    G: Gate + Sync,
>(rt: &R, alloc: Global, files: &FileSystem<M>, pairs: &mut [Pair<M>], scripts: &[Script], gate: &G)
    requires many { length scripts.now ≡ length pairs.old }
    requires some { 0 < length pairs.old }
    requires desk { (i : ℕ) (a : _) → slice_get pairs.old i ≡ Some a
        → AtDesk files.now.desk a.session.runner.user.chair × AtDesk files.now.desk a.helper.assistant.helper.chair }
    requires ready { (i : ℕ) (a : _) → slice_get pairs.old i ≡ Some a
        → M.is_ready files.now.geometry a.session.runner.user.queue a.session.runner.user.calls a.session.runner.user.held
        (view a.session.runner.user.chair)
        × (a.session.runner.user.queue ≡ i)
        × (a.session.runner.user.calls ≡ 0) }
    requires ease { (i : ℕ) (a : _) → slice_get pairs.old i ≡ Some a
        → M.is_at_ease files.now.geometry i (view a.helper.assistant.helper.chair) × (a.helper.assistant.queue ≡ i) }
    requires room { (i : ℕ) (a : _) (s : _) → slice_get pairs.old i ≡ Some a → slice_get scripts.now i ≡ Some s
        → HasRoom s.groups a.session.runner.told a.session.runner.reads a.line × IsShort s.groups }
    requires open { (i : ℕ) (a : _) → slice_get pairs.old i ≡ Some a
        → AreOpen a.line a.session.announcing a.helper.listening }
    ensures many { length pairs.new ≡ length pairs.old }
    ensures desk { (i : ℕ) (b : _) → slice_get pairs.new i ≡ Some b
        → AtDesk files.now.desk b.session.runner.user.chair × AtDesk files.now.desk b.helper.assistant.helper.chair }
    ensures ready { (i : ℕ) (b : _) → slice_get pairs.new i ≡ Some b
        → M.is_ready files.now.geometry b.session.runner.user.queue b.session.runner.user.calls b.session.runner.user.held
        (view b.session.runner.user.chair)
        × (b.session.runner.user.queue ≡ i) }
    ensures ease { (i : ℕ) (b : _) → slice_get pairs.new i ≡ Some b
        → M.is_at_ease files.now.geometry i (view b.helper.assistant.helper.chair) }
    ensures done { (i : ℕ) (b : _) → slice_get pairs.new i ≡ Some b
        → AreDone b.line b.session.announcing b.helper.listening }
    ensures played { (i : ℕ) (a b : _) (s : _) → slice_get pairs.old i ≡ Some a → slice_get pairs.new i ≡ Some b
        → slice_get scripts.now i ≡ Some s
        → M.has_played files.now.geometry i s.groups b.session.runner.told.items b.session.runner.reads.items
        (announced b.session.announcing) (served_by_session b.session.announcing)
        (view a.session.runner.user.chair) (view b.session.runner.user.chair) }
    ensures served { (i : ℕ) (a b : _) → slice_get pairs.old i ≡ Some a → slice_get pairs.new i ≡ Some b
        → M.has_served i (view a.helper.assistant.helper.chair) (served_by_helper b.helper.listening) (view b.helper.assistant.helper.chair) }
{
    let part = |i: usize, pair: &mut Pair<M>|
        requires within { i < length scripts.now }
        requires desk { AtDesk files.now.desk pair.now.session.runner.user.chair × AtDesk files.now.desk pair.now.helper.assistant.helper.chair }
        requires ready { M.is_ready files.now.geometry pair.now.session.runner.user.queue pair.now.session.runner.user.calls
            pair.now.session.runner.user.held (view pair.now.session.runner.user.chair)
            × (pair.now.session.runner.user.queue ≡ i)
            × (pair.now.session.runner.user.calls ≡ 0) }
        requires ease { M.is_at_ease files.now.geometry i (view pair.now.helper.assistant.helper.chair)
            × (pair.now.helper.assistant.queue ≡ i) }
        requires room { (s : _) → slice_get scripts.now i ≡ Some s
            → HasRoom s.groups pair.now.session.runner.told pair.now.session.runner.reads pair.now.line × IsShort s.groups }
        requires open { AreOpen pair.now.line pair.now.session.announcing pair.now.helper.listening }
        ensures desk { AtDesk files.entry.now.desk pair.exit.now.session.runner.user.chair
            × AtDesk files.entry.now.desk pair.exit.now.helper.assistant.helper.chair }
        ensures ready { M.is_ready files.entry.now.geometry pair.exit.now.session.runner.user.queue
            pair.exit.now.session.runner.user.calls pair.exit.now.session.runner.user.held (view pair.exit.now.session.runner.user.chair)
            × (pair.exit.now.session.runner.user.queue ≡ i) }
        ensures ease { M.is_at_ease files.entry.now.geometry i (view pair.exit.now.helper.assistant.helper.chair) }
        ensures done { AreDone pair.exit.now.line pair.exit.now.session.announcing pair.exit.now.helper.listening }
        ensures played { (s : _) → slice_get scripts.entry.now i ≡ Some s
            → M.has_played files.entry.now.geometry i s.groups pair.exit.now.session.runner.told.items
            pair.exit.now.session.runner.reads.items (announced pair.exit.now.session.announcing)
            (served_by_session pair.exit.now.session.announcing)
            (view pair.entry.now.session.runner.user.chair) (view pair.exit.now.session.runner.user.chair) }
        ensures served { M.has_served i (view pair.entry.now.helper.assistant.helper.chair)
            (served_by_helper pair.exit.now.helper.listening) (view pair.exit.now.helper.assistant.helper.chair) }
    { play_pair::<P, E, M, R, G>(rt, alloc, files, i, pair, scripts, gate) };
    let threads = pairs.len();
    for_each_mut(rt, pairs, threads, &part);
}

/// Each session plays the script of its own number, with its helper beside it, on threads of their own where
/// these can be made. It returns once all have played, and each notice is served.
pub(crate) fn play_all<P: Port + Drop + Send, R: Threads + Wait + Sync, G: Gate + Sync>(
    rt: &R,
    alloc: Global,
    files: &Mqfs<P>,
    pairs: &mut [Pair<FileMachine<P>>],
    scripts: &[Script],
    gate: &G,
)
    requires many { length scripts.now ≡ length pairs.old }
    requires some { 0 < length pairs.old }
    requires desk { (i : ℕ) (a : _) → slice_get pairs.old i ≡ Some a
        → AtDesk files.now.desk a.session.runner.user.chair × AtDesk files.now.desk a.helper.assistant.helper.chair }
    requires ready { (i : ℕ) (a : _) → slice_get pairs.old i ≡ Some a
        → IsReady files.now.geometry a.session.runner.user.queue a.session.runner.user.calls a.session.runner.user.held
        (view a.session.runner.user.chair)
        × (a.session.runner.user.queue ≡ i)
        × (a.session.runner.user.calls ≡ 0) }
    requires ease { (i : ℕ) (a : _) → slice_get pairs.old i ≡ Some a
        → IsAtEase (view a.helper.assistant.helper.chair) × (i < queues_of files.now.geometry)
        × (a.helper.assistant.queue ≡ i) }
    requires room { (i : ℕ) (a : _) (s : _) → slice_get pairs.old i ≡ Some a → slice_get scripts.now i ≡ Some s
        → HasRoom s.groups a.session.runner.told a.session.runner.reads a.line × IsShort s.groups }
    requires open { (i : ℕ) (a : _) → slice_get pairs.old i ≡ Some a
        → AreOpen a.line a.session.announcing a.helper.listening }
    ensures many { length pairs.new ≡ length pairs.old }
    ensures desk { (i : ℕ) (b : _) → slice_get pairs.new i ≡ Some b
        → AtDesk files.now.desk b.session.runner.user.chair × AtDesk files.now.desk b.helper.assistant.helper.chair }
    ensures ready { (i : ℕ) (b : _) → slice_get pairs.new i ≡ Some b
        → IsReady files.now.geometry b.session.runner.user.queue b.session.runner.user.calls b.session.runner.user.held
        (view b.session.runner.user.chair)
        × (b.session.runner.user.queue ≡ i) }
    ensures ease { (i : ℕ) (b : _) → slice_get pairs.new i ≡ Some b
        → IsAtEase (view b.helper.assistant.helper.chair) × (i < queues_of files.now.geometry) }
    ensures done { (i : ℕ) (b : _) → slice_get pairs.new i ≡ Some b
        → AreDone b.line b.session.announcing b.helper.listening }
    ensures played { (i : ℕ) (a b : _) (s : _) → slice_get pairs.old i ≡ Some a → slice_get pairs.new i ≡ Some b
        → slice_get scripts.now i ≡ Some s
        → HasPlayed P.state P.faults files.now.geometry i s.groups b.session.runner.told.items b.session.runner.reads.items
        (announced b.session.announcing) (served_by_session b.session.announcing)
        (view a.session.runner.user.chair) (view b.session.runner.user.chair) }
    ensures served { (i : ℕ) (a b : _) → slice_get pairs.old i ≡ Some a → slice_get pairs.new i ≡ Some b
        → AreServed P.state P.faults i (view a.helper.assistant.helper.chair) (served_by_helper b.helper.listening) (view b.helper.assistant.helper.chair) }
{
    play_each::<P, FileEntry, FileMachine<P>, R, G>(rt, alloc, files, pairs, scripts, gate);
}
