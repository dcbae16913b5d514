// The whole trace of a block text.
ghost use Rattle.std.specs.Prelude.{◌≡◌, ◌≤◌, ◌+◌, ◌++◌, ◌^◌, IfOk, length};
ghost use Rattle.std.specs.String.{string_bytes};
ghost use Rattle.mq_blocks.specs.Machine.{Map};
ghost use Rattle.mq_block_text.specs.Text.{AreGoodItems, IsGoodText, sets_in};
ghost use Rattle.mq_block_trace.specs.Fresh.{IsTextGeometry};
ghost use Rattle.mq_block_trace.specs.Marks.{AreMarked, AreMarks};
ghost use Rattle.mq_block_trace.specs.Traced.{cut_after, drawn_of, events_upto, tx_events};
ghost use Rattle.mq_block_trace.specs.Written.{IsTraced, events_text, head_line, start_line, trace_text};

use crate::laws::{traces_are_allowed, traces_are_read};
use crate::lines::{NAMED, mark_line};
use crate::steps::{Place, push_tx};
use mq_block_text::{BlockLine, BlockText};
use mq_blocks::{Geometry, OutOfMemory};
use std::alloc::{AllocError, Global};

// The two lines before the events.
fn first_lines(alloc: Global, geometry: Geometry) -> Result<String, AllocError>
    ensures { IfOk result (λ s. string_bytes s ≡ head_line geometry ++ start_line) }
{
    let (queues, area) = (geometry.queues(), geometry.area());
    let (meta, zone) = (geometry.meta(), geometry.zone());
    format!(in alloc; "geometry {queues} {area} {meta} {zone} 0\nstart\n")
}

// Adds the events of a line's transaction, up to a cut after `left` events on the port, and takes the marks of
// the live blocks past the line.
fn push_line(
    alloc: Global,
    out: &mut Vec<u8>,
    tx: Place,
    line: &BlockLine,
    left: u64,
    marks: &mut Vec<bool>,
) -> Result<(), OutOfMemory>
    requires good { AreGoodItems line.now }
    requires entries { tx.entries ≡ sets_in line.now + 1 }
    requires few { tx.entries ≤ 2 ^ 32 }
    requires low { tx.count ≤ 2 ^ 32 }
    requires whole { length marks.old.items ≡ 256 }
    ensures whole { IfOk result (λ _. length marks.new.items ≡ 256) }
    ensures marked { IfOk result (λ _. AreMarked line.now marks.old.items marks.new.items) }
    ensures written { IfOk result (λ _. (m : Map)
        → AreMarks m marks.old.items
        → out.new.items ≡ out.old.items
        ++ events_text (cut_after left (tx_events (drawn_of m tx.number line.now) tx.count tx.entries))) }
{
    let before = marks.clone()?;
    mark_line(line, marks);
    push_tx(alloc, out, tx, line, left, &before, marks)
}

// The trace of a text, up to a cut after so many events on the port.
fn print_trace(
    alloc: Global,
    geometry: Geometry,
    text: &BlockText,
    cut: u64,
) -> Result<Vec<u8>, OutOfMemory>
    requires good { IsGoodText text.now }
    ensures { IfOk result (λ v. v.items ≡ trace_text geometry
        (cut_after cut (events_upto text.now (length text.now)))) }
{
    let mut out = first_lines(alloc, geometry)?.into_bytes();
    let mut marks = vec![in alloc; false; NAMED]?;
    let mut tx = Place {
        number: 0,
        count: 0,
        entries: 0,
    };
    let mut left = cut;
    for line in &text.0 {
        tx = Place {
            number: tx.number + 1,
            count: tx.count + tx.entries,
            entries: line.sets() as u64 + 1,
        };
        push_line(alloc, &mut out, tx, line, left, &mut marks)?;
        if left < tx.events() {
            return Ok(out);
        }
        left -= tx.events();
    }
    Ok(out)
}

/// The trace of a text on the drive of block texts, up to a cut after `cut` events on the port, if that is
/// given.
pub fn write_trace(
    alloc: Global,
    geometry: Geometry,
    text: &BlockText,
    cut: Option<u64>,
) -> Result<Vec<u8>, OutOfMemory>
    requires geometry { IsTextGeometry geometry }
    requires good { IsGoodText text.now }
    ensures { IfOk result (λ v. IsTraced text.now cut v.items) }
{
    traces_are_allowed();
    traces_are_read();
    print_trace(alloc, geometry, text, cut.unwrap_or(u64::MAX))
}
