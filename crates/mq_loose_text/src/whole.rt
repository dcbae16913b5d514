// A whole text of the loose order.
ghost use Rattle.std.specs.Prelude.{◌≡◌, ℕ, List, IfErr, IfOk, MatchResult, map};
ghost use Rattle.mq_loose_text.specs.Text.{IsGoodText, IsLooseText, IsRefusal, IsRefused, RefusesLines, RefusesText, line_text};
ghost use Rattle.mq_loose_text.specs.declared.line.LooseLine as spelled;

use crate::line::{LooseLine, LooseText};
use crate::places::room_behind;
use crate::read::read_loose_line;
use crate::refusal::LooseTextRefusal;
use mq_block_text::{cut_at, without_last_line_feed};
use std::alloc::Global;

/// The blocks of each queue's journal area, which the commits on the queue must fit.
const PLACES: usize = 1024;

// The lines of these texts, which fit the journal areas.
fn read_lines(alloc: Global, texts: &[&[u8]]) -> Result<Vec<LooseLine>, LooseTextRefusal>
    ensures ok { IfOk result (λ v. (map (λ x. x.now) texts.now ≡ map line_text v.items)
        × IsGoodText v.items) }
    ensures refused { IfErr result (IsRefused (RefusesLines (map (λ x. x.now) texts.now))) }
{
    let mut room = [PLACES; 4];
    let mut lines = Vec::new(alloc);
    for text in texts {
        let number = lines.len() as u64 + 1;
        let Some(line) = read_loose_line(alloc, text)? else {
            return Err(LooseTextRefusal::Line { line: number });
        };
        let Some(left) = room_behind(room, &line) else {
            return Err(LooseTextRefusal::Line { line: number });
        };
        room = left;
        lines.push(line)?;
    }
    Ok(lines)
}

// The lines of a text. That no other answer fits the text is left to the caller.
fn read_bytes(alloc: Global, bytes: &[u8]) -> Result<LooseText, LooseTextRefusal>
    ensures ok { IfOk result (λ t. IsLooseText bytes.now t) }
    ensures refused { IfErr result (IsRefused (RefusesText bytes.now)) }
{
    if bytes.is_empty() {
        return Ok(LooseText(Vec::new(alloc)));
    }
    let texts = cut_at(alloc, without_last_line_feed(bytes), b'\n')?;
    Ok(LooseText(read_lines(alloc, &texts)?))
}

/// The lines of a text of the loose order.
pub fn read_loose_text(alloc: Global, bytes: &[u8]) -> Result<LooseText, LooseTextRefusal>
    // What is read is spelled so.
    ensures ok { IfOk result (λ t. IsLooseText bytes.now t) }
    // What is refused at a line may not stand there.
    ensures refused { IfErr result (IsRefused (RefusesText bytes.now)) }
    // What may not stand at a line is refused there, unless memory runs out.
    ensures exact { (line : ℕ) → RefusesText bytes.now line → IsRefusal result line }
    // What is spelled so is read, unless memory runs out.
    ensures only { (lines : List spelled.LooseLine)
        → IsLooseText bytes.now lines
        → MatchResult result (λ t. t ≡ lines) (λ e. e ≡ LooseTextRefusal.OutOfMemory) }
{
    read_bytes(alloc, bytes)
}
