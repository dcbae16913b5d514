// What the machine says of a trace.
ghost use Rattle.std.specs.Prelude.{◌≡◌, ◌≤◌, ◌⊎◌, ◌+◌, ◌^◌, ℕ, List, IfOk, MatchResult, length, filter, not};
ghost use Rattle.std.specs.List.{range_with_len};
ghost use Rattle.mq_blocks.specs.Geometry.{homes_of};
ghost use Rattle.mq_blocks.specs.Journal.{is_among};
ghost use Rattle.mq_core.specs.Machine.{AreAllowed, IsRefusedAt};
ghost use Rattle.mq_ledger.specs.Plain.{plain};
ghost use Rattle.mq_audit.specs.Findings.{Accepts, IsAccepted, Finds, IsFinding, IsLow, Refuses, HasTold, told_in, told_more};
ghost use Rattle.mq_audit.specs.Traces.{Trace as Text, IsTrace, IsMisread, start_of};

use crate::refusal::TraceRefusal;
use crate::trace::{Trace, read_trace};
use mq_blocks::{Geometry, OutOfMemory, TxNo};
use mq_core::{Content, Core, CoreRefusal, Event};
use std::alloc::Global;

/// What the machine says of a trace.
#[derive(Drop)]
pub enum Finding {
    /// All events are allowed.
    Accepted {
        /// The number of events.
        events: u64,
        /// The number of draws.
        drawn: u64,
        /// The number of transactions up to which all are done.
        done: u64,
        /// The drawn numbers that aren't acknowledged.
        unacknowledged: Vec<TxNo>,
        /// The least number that an image of the last state reaches.
        least: TxNo,
        /// The greatest one.
        greatest: TxNo,
    },
    /// The first event that is not allowed stands on this line.
    Refused {
        line: u64,
    },
}

/// Takes the number of an acknowledgement as told, where the table from the base on has it.
fn tell(told: &mut Vec<bool>, base: u64, event: &Event)
    ensures length { length told.new.items ≡ length told.old.items }
    ensures told { (ns : List ℕ) → HasTold base ns told.old.items → HasTold base (told_more event.now ns) told.new.items }
{
    if let Event::Acknowledge { number } = event {
        if number.0 > base && number.0 - base <= told.len() as u64 {
            let at = (number.0 - base - 1) as usize;
            told[at] = true;
        }
    }
}

/// For each number after the base, as many as there are events: whether an event acknowledges it.
fn told_numbers(alloc: Global, base: u64, events: &[Event]) -> Result<Vec<bool>, OutOfMemory>
    ensures length { IfOk result (λ v. length v.items ≡ length events.now) }
    ensures told { IfOk result (λ v. HasTold base (told_in events.now) v.items) }
{
    let mut told = vec![in alloc; false; events.len()]?;
    for event in events {
        tell(&mut told, base, event);
    }
    Ok(told)
}

/// The numbers after the base that were not told, of the first ones of a table.
fn untold(alloc: Global, base: u64, told: &[bool], drawn: u64) -> Result<Vec<TxNo>, OutOfMemory>
    requires drawn { drawn ≤ length told.now }
    requires base { base ≤ 2 ^ 62 }
    ensures { IfOk result (λ v. (ns : List ℕ)
        → HasTold base ns told.now
        → v.items ≡ filter (λ n. not (is_among n ns)) (range_with_len (base + 1) drawn)) }
{
    let mut waiting = Vec::new(alloc);
    for at in 0..drawn {
        if !told[at as usize] {
            waiting.push(TxNo(base + at + 1))?;
        }
    }
    Ok(waiting)
}

/// What is said of the machine after all events of a trace.
fn accepted(
    alloc: Global,
    core: &Core,
    base: TxNo,
    events: u64,
    told: &[bool],
) -> Result<Finding, OutOfMemory>
    requires base { base ≡ core.now.base }
    requires low { base ≤ 2 ^ 62 }
    requires drawn { length core.now.history ≤ length told.now }
    requires told { HasTold core.now.base core.now.acknowledged told.now }
    ensures { IfOk result (Accepts core.now events) }
{
    let drawn = core.last().0 - base.0;
    let done = core.done().0 - base.0;
    let (least, greatest) = core.reach();
    let unacknowledged = untold(alloc, base.0, told, drawn)?;
    Ok(Finding::Accepted {
        events,
        drawn,
        done,
        unacknowledged,
        least,
        greatest,
    })
}

/// What is said of a run that is refused. The first event stands on the third line.
fn refused(refusal: CoreRefusal) -> Result<Finding, OutOfMemory>
    requires { IsLow refusal }
    ensures { Refuses refusal result }
{
    match refusal {
        CoreRefusal::NotAllowed { index } => Ok(Finding::Refused { line: index + 3 }),
        CoreRefusal::OutOfMemory => Err(OutOfMemory),
    }
}

/// What the machine says of these events, on a drive that has these home blocks and this base.
fn run_events(
    alloc: Global,
    geometry: Geometry,
    base: TxNo,
    start: &[Option<Content>],
    events: Vec<Event>,
) -> Result<Finding, OutOfMemory>
    requires base { base ≤ 2 ^ 62 }
    requires start { length start.now ≡ homes_of geometry }
    ensures { IfOk result (Finds (record { geometry = geometry; base = base; start = start.now; events = events.items })) }
{
    let count = events.len() as u64;
    let told = told_numbers(alloc, base.0, &events)?;
    let core = Core::start(alloc, geometry, start, base)?;
    match Core::run(alloc, core, events) {
        Ok(core) => accepted(alloc, &core, base, count, &told),
        Err(refusal) => refused(refusal),
    }
}

/// What the machine says of a trace.
fn run_trace(alloc: Global, trace: Trace) -> Result<Finding, OutOfMemory>
    requires base { trace.base ≤ 2 ^ 62 }
    requires start { length trace.start ≡ homes_of trace.geometry }
    ensures { IfOk result (Finds trace) }
{
    let start = trace.start;
    run_events(alloc, trace.geometry, trace.base, &start, trace.events)
}

/// What the machine says of the trace of a text. That no other answer fits the text is left to the
/// caller.
fn run_text(alloc: Global, bytes: &[u8]) -> Result<Finding, TraceRefusal>
    ensures { IsFinding bytes.now result }
{
    let trace = read_trace(alloc, bytes)?;
    Ok(run_trace(alloc, trace)?)
}

/// What the machine says of the trace of a text, or the first line that is not in its form.
pub fn audit(alloc: Global, bytes: &[u8]) -> Result<Finding, TraceRefusal>
    // What is found is so.
    ensures found { IsFinding bytes.now result }
    // The first line that is not in its form is refused, unless memory runs out.
    ensures line { (line : ℕ)
        → IsMisread bytes.now line
        → MatchResult result (λ f. ⊥)
        (λ e. (e ≡ TraceRefusal.Line line) ⊎ (e ≡ TraceRefusal.OutOfMemory)) }
    // What is found of a trace is so of it, unless memory runs out.
    ensures trace { (t : Text)
        → IsTrace bytes.now t
        → MatchResult result (Finds t) (λ e. e ≡ TraceRefusal.OutOfMemory) }
    // A trace whose events are all allowed is accepted.
    ensures accepted { (t : Text)
        → IsTrace bytes.now t
        → AreAllowed plain t.events (start_of t)
        → MatchResult result IsAccepted (λ e. e ≡ TraceRefusal.OutOfMemory) }
    // One with an event that isn't allowed is refused at the first one.
    ensures refused { (t : Text) (index : ℕ)
        → IsTrace bytes.now t
        → IsRefusedAt plain t.events (start_of t) index
        → MatchResult result (λ f. f ≡ Finding.Refused (index + 3))
        (λ e. e ≡ TraceRefusal.OutOfMemory) }
{
    run_text(alloc, bytes)
}
