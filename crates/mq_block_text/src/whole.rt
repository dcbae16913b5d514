// A whole block text.
ghost use Rattle.std.specs.Prelude.{◌≡◌, ℕ, List, IfErr, IfOk, MatchResult, map};
ghost use Rattle.mq_block_text.specs.declared.item.BlockItem.{BlockItem};
ghost use Rattle.mq_block_text.specs.declared.refusal.BlockTextCause.{BlockTextCause};
ghost use Rattle.mq_block_text.specs.Refusals.{IsRefusal, IsRefused, RefusesLines, RefusesText};
ghost use Rattle.mq_block_text.specs.Text.{line_text, IsTextOf, IsGoodText};

use crate::line::{BlockLine, read_line};
use crate::parts::{cut_at, without_last_line_feed};
use crate::refusal::{BlockTextCause, BlockTextRefusal};
use std::alloc::Global;
use std::marker::Model;

/// The lines of a block text, each a transaction, in order.
#[derive(Drop)]
pub struct BlockText(pub Vec<BlockLine>);

impl Model for BlockText {
    ghost use Rattle.std.specs.Prelude.{List};
    ghost use Rattle.mq_block_text.specs.declared.item.BlockItem.{BlockItem};

    ghost Value = { List (List BlockItem) };

    ghost view = { λ t. t.0.items };
}

/// The number of blocks of the smallest journal area, which a whole text must fit.
const PLACES: usize = 1024;

/// The lines of these texts, which fit the smallest journal area.
fn read_lines(alloc: Global, texts: &[&[u8]]) -> Result<Vec<BlockLine>, BlockTextRefusal>
    ensures ok { IfOk result (λ v. (map (λ x. x.now) texts.now ≡ map line_text v.items)
        × IsGoodText v.items) }
    ensures refused { IfErr result (IsRefused (RefusesLines (map (λ x. x.now) texts.now))) }
{
    let mut room = PLACES;
    let mut lines = Vec::new(alloc);
    for text in texts {
        let number = lines.len() as u32 + 1;
        let line = read_line(alloc, number, text)?;
        let sets = line.sets();
        if sets >= room {
            let cause = BlockTextCause::Area;
            return Err(BlockTextRefusal::At {
                line: number,
                cause,
            });
        }
        room -= sets + 1;
        lines.push(line)?;
    }
    Ok(lines)
}

/// The lines of a text. That no other answer fits the text is left to the caller.
fn read_bytes(alloc: Global, bytes: &[u8]) -> Result<BlockText, BlockTextRefusal>
    ensures ok { IfOk result (λ t. IsTextOf bytes.now t × IsGoodText t) }
    ensures refused { IfErr result (IsRefused (RefusesText bytes.now)) }
{
    if bytes.is_empty() {
        return Ok(BlockText(Vec::new(alloc)));
    }
    let texts = cut_at(alloc, without_last_line_feed(bytes), b'\n')?;
    Ok(BlockText(read_lines(alloc, &texts)?))
}

/// The lines of a block text.
pub fn read_block_text(alloc: Global, bytes: &[u8]) -> Result<BlockText, BlockTextRefusal>
    // What is read is spelled so.
    ensures ok { IfOk result (λ t. IsTextOf bytes.now t × IsGoodText t) }
    // What is refused at a line has this cause there.
    ensures refused { IfErr result (IsRefused (RefusesText bytes.now)) }
    // What has a cause at a line is refused so, unless memory runs out.
    ensures exact { (line : ℕ) (cause : BlockTextCause)
        → RefusesText bytes.now line cause
        → IsRefusal result line cause }
    // What is spelled so is read, unless memory runs out.
    ensures only { (lines : List (List BlockItem))
        → IsTextOf bytes.now lines
        → IsGoodText lines
        → MatchResult result (λ t. t ≡ lines) (λ e. e ≡ BlockTextRefusal.OutOfMemory) }
{
    read_bytes(alloc, bytes)
}
