// The lines of one transaction of a trace.
ghost use Rattle.std.specs.Prelude.{◌≡◌, ◌<◌, ◌≤◌, ◌+◌, ◌++◌, ◌^◌, ◌∷◌, [], ℕ, IfOk, None, codes, decimal, length, map, slice_index_or};
ghost use Rattle.std.specs.String.{string_bytes};
ghost use Rattle.mq_audit.specs.Spelled.{set_word};
ghost use Rattle.mq_blocks.specs.Machine.{Map};
ghost use Rattle.mq_block_text.specs.Text.{AreGoodItems, sets_in, set_text};
ghost use Rattle.mq_core.specs.declared.event.Event.TheVariants.{Acknowledge, Clear, Draw};
ghost use Rattle.mq_block_trace.specs.Lines.{named, writes_from};
ghost use Rattle.mq_block_trace.specs.Marks.{AreMarked, AreMarks, dropped_from};
ghost use Rattle.mq_block_trace.specs.Traced.{cut_after, drawn_of, freed_from, tx_events};
ghost use Rattle.mq_block_trace.specs.Written.{event_line, events_text, spaced, step_at, steps_from};

use crate::lines::{NAMED, fills_of};
use mq_block_text::BlockLine;
use mq_blocks::OutOfMemory;
use std::alloc::{AllocError, Global};

/// A transaction of a text, as its events name it.
#[derive(Clone, Copy)]
pub struct Place {
    pub number: u64,
    /// The count of its first entry.
    pub count: u64,
    /// Its entries: one for each block that it sets, and its descriptor's.
    pub entries: u64,
}

impl Place {
    ghost use Rattle.std.specs.Prelude.{◌*◌};

    /// Its events on the port.
    pub fn events(self) -> u64
        requires { self.entries ≤ 2 ^ 32 }
        ensures { result ≡ 2 * self.entries + 4 }
    {
        2 * self.entries + 4
    }
}

// A space, and a block with its byte.
fn set_after_space(alloc: Global, block: u32, byte: u8) -> Result<String, AllocError>
    ensures { IfOk result (λ s. string_bytes s ≡ 32 ∷ set_text block byte) }
{
    format!(in alloc; " {block}={byte:02x}")
}

// A space and a block.
fn block_after_space(alloc: Global, block: u32) -> Result<String, AllocError>
    ensures { IfOk result (λ s. string_bytes s ≡ 32 ∷ decimal block) }
{
    format!(in alloc; " {block}")
}

// Adds the blocks that are filled, each with its byte.
fn push_sets(alloc: Global, out: &mut Vec<u8>, fills: &[Option<u8>]) -> Result<(), OutOfMemory>
    requires { length fills.now ≡ 256 }
    ensures { IfOk result (λ _. out.new.items ≡ out.old.items
        ++ spaced (map set_word (writes_from (λ b. slice_index_or fills.now b None) 0 named))) }
{
    for b in 0..NAMED {
        match fills[b] {
            None => {}
            Some(byte) => {
                out.extend_from_slice(set_after_space(alloc, b as u32, byte)?.as_bytes())?;
            }
        }
    }
    Ok(())
}

// Adds the blocks that were live before a line and aren't after it.
fn push_freed(
    alloc: Global,
    out: &mut Vec<u8>,
    before: &[bool],
    after: &[bool],
) -> Result<(), OutOfMemory>
    requires before { length before.now ≡ 256 }
    requires after { length after.now ≡ 256 }
    ensures { IfOk result (λ _. out.new.items ≡ out.old.items
        ++ spaced (map decimal (dropped_from before.now after.now 0 named))) }
{
    for b in 0..NAMED {
        if before[b] && !after[b] {
            out.extend_from_slice(block_after_space(alloc, b as u32)?.as_bytes())?;
        }
    }
    Ok(())
}

// Adds the draw of a line's transaction. The marks say which blocks are live before the line and after it.
fn push_draw(
    alloc: Global,
    out: &mut Vec<u8>,
    line: &BlockLine,
    before: &[bool],
    after: &[bool],
) -> Result<(), OutOfMemory>
    requires good { AreGoodItems line.now }
    requires before { length before.now ≡ 256 }
    requires after { length after.now ≡ 256 }
    requires marked { AreMarked line.now before.now after.now }
    ensures { IfOk result (λ _. (m : Map) (number : ℕ)
        → AreMarks m before.now
        → out.new.items ≡ out.old.items ++ event_line (Draw (drawn_of m number line.now))) }
{
    let fills = fills_of(alloc, line)?;
    out.extend_from_slice(b"draw 0 logged")?;
    push_sets(alloc, out, &fills)?;
    out.extend_from_slice(b" direct revoked freed")?;
    push_freed(alloc, out, before, after)?;
    out.push(b'\n')?;
    Ok(())
}

fn clear_line(alloc: Global, number: u64) -> Result<String, AllocError>
    ensures { IfOk result (λ s. string_bytes s ≡ event_line (Clear 0 number)) }
{
    format!(in alloc; "clear 0 {number}\n")
}

fn ack_line(alloc: Global, number: u64) -> Result<String, AllocError>
    ensures { IfOk result (λ s. string_bytes s ≡ event_line (Acknowledge number)) }
{
    format!(in alloc; "ack {number}\n")
}

// The line of the event on the port that comes after `at` of the transaction's.
fn step_line(alloc: Global, tx: Place, at: u64) -> Result<String, AllocError>
    requires few { tx.entries ≤ 2 ^ 32 }
    requires low { tx.count ≤ 2 ^ 32 }
    requires within { at ≤ 2 ^ 34 }
    ensures { IfOk result (λ s. string_bytes s ≡ event_line (step_at tx.count tx.entries at)) }
{
    if at < tx.entries {
        format!(in alloc; "stage 0\n")
    } else if at < tx.entries + 1 {
        format!(in alloc; "flush 0\n")
    } else if at < tx.entries + 2 {
        format!(in alloc; "ring 0\n")
    } else if at < 2 * tx.entries + 2 {
        let count = tx.count + at - (tx.entries + 2);
        format!(in alloc; "complete 0 {count}\n")
    } else if at < 2 * tx.entries + 3 {
        let head = tx.count + tx.entries;
        format!(in alloc; "storehead 0 {head}\n")
    } else {
        format!(in alloc; "flushhead 0\n")
    }
}

// Adds the first events on the port, so many.
fn push_steps(alloc: Global, out: &mut Vec<u8>, tx: Place, steps: u64) -> Result<(), OutOfMemory>
    requires few { tx.entries ≤ 2 ^ 32 }
    requires low { tx.count ≤ 2 ^ 32 }
    requires within { steps ≤ 2 ^ 34 }
    ensures { IfOk result (λ _. out.new.items ≡ out.old.items
        ++ events_text (steps_from tx.count tx.entries 0 steps)) }
{
    for at in 0..steps {
        out.extend_from_slice(step_line(alloc, tx, at)?.as_bytes())?;
    }
    Ok(())
}

/// Adds the events of a line's transaction, up to a cut after `left` events on the port. The marks say which
/// blocks are live before the line and after it.
pub fn push_tx(
    alloc: Global,
    out: &mut Vec<u8>,
    tx: Place,
    line: &BlockLine,
    left: u64,
    before: &[bool],
    after: &[bool],
) -> Result<(), OutOfMemory>
    requires good { AreGoodItems line.now }
    requires entries { tx.entries ≡ sets_in line.now + 1 }
    requires few { tx.entries ≤ 2 ^ 32 }
    requires low { tx.count ≤ 2 ^ 32 }
    requires before { length before.now ≡ 256 }
    requires after { length after.now ≡ 256 }
    requires marked { AreMarked line.now before.now after.now }
    ensures { IfOk result (λ _. (m : Map)
        → AreMarks m before.now
        → out.new.items ≡ out.old.items
        ++ events_text (cut_after left (tx_events (drawn_of m tx.number line.now) tx.count tx.entries))) }
{
    out.extend_from_slice(clear_line(alloc, tx.number)?.as_bytes())?;
    push_draw(alloc, out, line, before, after)?;
    let all = tx.events();
    push_steps(alloc, out, tx, left.min(all))?;
    if left >= all {
        out.extend_from_slice(ack_line(alloc, tx.number)?.as_bytes())?;
    }
    Ok(())
}
