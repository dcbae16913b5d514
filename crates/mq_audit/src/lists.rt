// Lists of words: blocks with their bytes, blocks alone, and the parts between words.
ghost use Rattle.std.specs.Prelude.{◌≡◌, IfOk, map, replicate};
ghost use Rattle.std.specs.Option.{option_map};
ghost use Rattle.mq_audit.specs.Answers.{Reads};
ghost use Rattle.mq_audit.specs.Lists.{sets_in, blocks_in, headed, cut_by};

use crate::refusal::Misread;
use crate::words::{block_of, set_of};
use mq_blocks::{BlockNo, Geometry, OutOfMemory};
use mq_core::{Blocks, Content, Writes};
use std::alloc::Global;

/// The block whose bytes are all this one.
fn filled(alloc: Global, byte: u8) -> Result<Content, OutOfMemory>
    ensures { IfOk result (λ c. c ≡ replicate 4096 byte) }
{
    Ok(Content(vec![in alloc; byte; 4096]?))
}

/// The blocks of these words, in rising order, each with what it gets.
pub fn read_sets(alloc: Global, geometry: Geometry, words: &[&[u8]]) -> Result<Writes, Misread>
    ensures { Reads (sets_in geometry 0 (map (λ w. w.now) words.now)) result }
{
    let mut low = 0;
    let mut sets = Vec::new(alloc);
    for word in words {
        let Some((block, byte)) = set_of(geometry, word) else {
            return Err(Misread::Form);
        };
        if block.0 < low {
            return Err(Misread::Form);
        }
        sets.push((block, filled(alloc, byte)?))?;
        low = block.0 + 1;
    }
    Ok(Writes(sets))
}

/// The blocks of these words, in rising order.
pub fn read_blocks(alloc: Global, geometry: Geometry, words: &[&[u8]]) -> Result<Blocks, Misread>
    ensures { Reads (blocks_in geometry 0 (map (λ w. w.now) words.now)) result }
{
    let mut low = 0;
    let mut blocks = Vec::new(alloc);
    for word in words {
        let Some(block) = block_of(geometry, word) else {
            return Err(Misread::Form);
        };
        if block.0 < low {
            return Err(Misread::Form);
        }
        blocks.push(block)?;
        low = block.0 + 1;
    }
    Ok(Blocks(blocks))
}

/// The words after the first, where this is the first.
pub fn after_word<'a, 'b>(words: &'a [&'b [u8]], word: &[u8]) -> Option<&'a [&'b [u8]]>
    ensures { option_map (λ ws. map (λ w. w.now) ws.now) result ≡ headed word.now (map (λ w. w.now) words.now) }
{
    let (first, rest) = words.split_first()?;
    if *first == word { Some(rest) } else { None }
}

/// The words before this one, where it first stands, and those after it.
pub fn cut_words<'a, 'b>(
    words: &'a [&'b [u8]],
    word: &[u8],
) -> Option<(&'a [&'b [u8]], &'a [&'b [u8]])>
    ensures { option_map (λ p. (map (λ w. w.now) p.0.now, map (λ w. w.now) p.1.now)) result
        ≡ cut_by word.now (map (λ w. w.now) words.now) }
{
    for at in 0..words.len() {
        if words[at] == word {
            return Some((&words[..at], &words[at + 1..]));
        }
    }
    None
}
