// Whole traces.
ghost use Rattle.std.specs.Prelude.{◌≡◌, ◌≤◌, ◌<◌, ◌+◌, ◌^◌, ℕ, IfErr, IfOk, IfSome, Ok, None, Some, length, map, replicate};
ghost use Rattle.mq_blocks.specs.Geometry.{queues_of, area_of, meta_of, zone_size, homes_of};
ghost use Rattle.mq_blocks.specs.declared.geometry.Geometry.{Geometry as Shape};
ghost use Rattle.mq_audit.specs.Traces.{numbers_in, IsHead, IsReading, Gives, Refuses, AreBelow, placed, start_in, last_after, steps_in, rest_in, lines_of, tail_of};
ghost use Rattle.mq_audit.specs.declared.refusal.Misread.TheVariants.{Form as form};

use crate::event::read_event;
use crate::lists::{after_word, read_sets};
use crate::refusal::{Misread, TraceRefusal};
use mq_block_text::{cut_at, number_of};
use mq_blocks::{Geometry, OutOfMemory, TxNo};
use mq_core::{Content, Event, Writes};
use std::alloc::{AllocError, Global};
use std::marker::Model;

/// A trace: what the machine starts from, and the events.
#[derive(Drop)]
pub struct Trace {
    pub geometry: Geometry,
    pub base: TxNo,
    pub start: Vec<Option<Content>>,
    pub events: Vec<Event>,
}

impl Model for Trace {
    ghost use Rattle.mq_audit.specs.Traces.{Trace as Text};

    ghost Value = { Text };

    ghost view = { λ t. record { geometry = t.geometry; base = t.base; start = t.start.items; events = t.events.items } };
}

/// The text up to its last line feed, cut into lines, and what follows it.
#[derive(Drop)]
struct Lines<'a> {
    whole: Vec<&'a [u8]>,
    tail: &'a [u8],
}

/// The numbers of these words.
fn read_numbers(alloc: Global, words: &[&[u8]]) -> Result<Vec<u64>, Misread>
    ensures ok { IfOk result (λ v. numbers_in (map (λ w. w.now) words.now) ≡ Some v.items) }
    ensures refused { IfErr result (λ e. e ≡ form → numbers_in (map (λ w. w.now) words.now) ≡ None) }
{
    let mut numbers = Vec::new(alloc);
    for word in words {
        match number_of(word) {
            Some(number) => numbers.push(number)?,
            None => return Err(Misread::Form),
        }
    }
    Ok(numbers)
}

/// The geometry of four numbers.
fn geometry_of(queues: u64, area: u64, meta: u64, zone: u64) -> Option<Geometry>
    ensures found { IfSome result (λ g. (queues_of g ≡ queues)
        × (area_of g ≡ area)
        × (meta_of g ≡ meta)
        × (zone_size g ≡ zone)) }
    ensures only { result ≡ None
        → (g : Shape)
        → queues_of g ≡ queues
        → area_of g ≡ area
        → meta_of g ≡ meta
        → zone_size g ≡ zone
        → ⊥ }
{
    let queues = u32::try_from(queues).ok()?;
    let area = u32::try_from(area).ok()?;
    let meta = u32::try_from(meta).ok()?;
    let zone = u32::try_from(zone).ok()?;
    Geometry::new(queues, area, meta, zone).ok()
}

/// The geometry and the base of the first line.
fn read_head(alloc: Global, line: &[u8]) -> Result<(Geometry, TxNo), Misread>
    ensures ok { IfOk result (λ h. IsHead line.now h.0 h.1) }
    ensures refused { IfErr result (λ e. e ≡ form → (g : Shape) (base : ℕ) → IsHead line.now g base → ⊥) }
{
    let words = cut_at(alloc, line, b' ')?;
    let Some(words) = after_word(&words, b"geometry") else {
        return Err(Misread::Form);
    };
    let numbers = read_numbers(alloc, words)?;
    let [queues, area, meta, zone, base] = *numbers else {
        return Err(Misread::Form);
    };
    if base > 1 << 62 {
        return Err(Misread::Form);
    }
    match geometry_of(queues, area, meta, zone) {
        Some(geometry) => Ok((geometry, TxNo(base))),
        None => Err(Misread::Form),
    }
}

/// Home blocks that are all free.
fn free_blocks(alloc: Global, blocks: u32) -> Result<Vec<Option<Content>>, OutOfMemory>
    ensures { IfOk result (λ v. v.items ≡ replicate blocks None) }
{
    let mut free = Vec::new(alloc);
    for _ in 0..blocks {
        free.push(None)?;
    }
    Ok(free)
}

/// Gives each block its content.
fn place(blocks: &mut Vec<Option<Content>>, sets: Writes)
    requires { AreBelow (length blocks.old.items) sets }
    ensures { blocks.new.items ≡ placed sets blocks.old.items }
{
    for (block, content) in sets.0 {
        blocks[block.0 as usize] = Some(content);
    }
}

/// The home blocks at the start.
fn read_start(
    alloc: Global,
    geometry: Geometry,
    line: &[u8],
) -> Result<Vec<Option<Content>>, Misread>
    ensures ok { IfOk result (λ v. start_in geometry line.now ≡ Some v.items) }
    ensures length { IfOk result (λ v. length v.items ≡ homes_of geometry) }
    ensures refused { IfErr result (λ e. e ≡ form → start_in geometry line.now ≡ None) }
{
    let words = cut_at(alloc, line, b' ')?;
    let Some(words) = after_word(&words, b"start") else {
        return Err(Misread::Form);
    };
    let sets = read_sets(alloc, geometry, words)?;
    let mut start = free_blocks(alloc, geometry.homes())?;
    place(&mut start, sets);
    Ok(start)
}

/// The number that was drawn last after an event.
fn last_after(event: &Event, last: u64) -> u64
    requires { last + 1 < 2 ^ 64 }
    ensures { result ≡ last_after event.now last }
{
    match event {
        Event::Draw(_) => last + 1,
        _ => last,
    }
}

/// The events of these lines, from the third on.
fn read_steps(
    alloc: Global,
    geometry: Geometry,
    base: TxNo,
    lines: &[&[u8]],
) -> Result<Vec<Event>, TraceRefusal>
    requires base { base ≤ 2 ^ 62 }
    requires few { length lines.now < 2 ^ 63 }
    ensures ok { IfOk result (λ v. steps_in geometry base 3 (map (λ l. l.now) lines.now) ≡ Ok v.items) }
    ensures refused { IfErr result (Refuses (steps_in geometry base 3 (map (λ l. l.now) lines.now))) }
{
    let mut last = base.0;
    let mut line = 3;
    let mut events = Vec::new(alloc);
    for text in lines {
        let event = match read_event(alloc, geometry, TxNo(last + 1), text) {
            Ok(event) => event,
            Err(misread) => return Err(misread.at(line)),
        };
        last = last_after(&event, last);
        events.push(event)?;
        line += 1;
    }
    Ok(events)
}

/// A trace by its lines from the second on, and what follows the last line feed.
fn read_rest(
    alloc: Global,
    geometry: Geometry,
    base: TxNo,
    lines: &[&[u8]],
    tail: &[u8],
) -> Result<Trace, TraceRefusal>
    requires base { base ≤ 2 ^ 62 }
    requires few { length lines.now < 2 ^ 63 }
    ensures answer { Gives (rest_in geometry base (map (λ l. l.now) lines.now) tail.now) result }
    ensures start { IfOk result (λ t. length t.start ≡ homes_of t.geometry) }
    ensures base { IfOk result (λ t. t.base ≤ 2 ^ 62) }
{
    let Some((start, lines)) = lines.split_first() else {
        return Err(TraceRefusal::Line { line: 2 });
    };
    let start = match read_start(alloc, geometry, start) {
        Ok(start) => start,
        Err(misread) => return Err(misread.at(2)),
    };
    let events = read_steps(alloc, geometry, base, lines)?;
    if !tail.is_empty() {
        let line = lines.len() as u64 + 3;
        return Err(TraceRefusal::Line { line });
    }
    Ok(Trace {
        geometry,
        base,
        start,
        events,
    })
}

/// The lines of a text.
fn cut_lines(alloc: Global, bytes: &[u8]) -> Result<Lines<'_>, AllocError>
    ensures whole { IfOk result (λ l. map (λ w. w.now) l.whole.items ≡ lines_of bytes.now) }
    ensures tail { IfOk result (λ l. l.tail.now ≡ tail_of bytes.now) }
{
    let mut whole = cut_at(alloc, bytes, b'\n')?;
    match whole.pop() {
        Some(tail) => Ok(Lines { whole, tail }),
        None => Ok(Lines { whole, tail: bytes }),
    }
}

/// The trace of a text.
pub fn read_trace(alloc: Global, bytes: &[u8]) -> Result<Trace, TraceRefusal>
    ensures reading { IsReading bytes.now result }
    ensures start { IfOk result (λ t. length t.start ≡ homes_of t.geometry) }
    ensures base { IfOk result (λ t. t.base ≤ 2 ^ 62) }
{
    let lines = cut_lines(alloc, bytes)?;
    let Some((head, rest)) = lines.whole.split_first() else {
        return Err(TraceRefusal::Line { line: 1 });
    };
    match read_head(alloc, head) {
        Ok(start) => read_rest(alloc, start.0, start.1, rest, lines.tail),
        Err(misread) => Err(misread.at(1)),
    }
}
