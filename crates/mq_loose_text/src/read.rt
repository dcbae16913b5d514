// A line of a text of the loose order.
ghost use Rattle.std.specs.Prelude.{◌≡◌, ◌≢◌, ◌<◌, ◌+◌, ◌∷◌, ◌++◌, [], ℕ, List, None, Some, IfOk, IfSome, codes, length};
ghost use Rattle.mq_block_text.specs.Text as items;
ghost use Rattle.mq_block_text.specs.declared.item.BlockItem.{BlockItem};
ghost use Rattle.mq_loose_text.specs.Text.{IsGoodLine, line_text, queue_count};
ghost use Rattle.mq_loose_text.specs.declared.line.LooseLine as spelled;

use crate::line::LooseLine;
use mq_block_text::{
    BlockLine, BlockText, BlockTextRefusal, read_block_text, without_last_line_feed,
};
use mq_blocks::{OutOfMemory, QueueNo};
use std::alloc::Global;

// The queue of a digit.
#[tactic(auto, unfolding(crate::specs::Text::queue_count))]
fn read_queue(digit: u8) -> Option<QueueNo>
    ensures found { IfSome result (λ q. (q < queue_count) × (digit ≡ 48 + q)) }
    ensures only { (q : ℕ) → q < queue_count → digit ≡ 48 + q → result ≡ Some q }
{
    match digit {
        b'0'..=b'3' => Some(QueueNo(u32::from(digit - b'0'))),
        _ => None,
    }
}

// The only line of a text.
fn only_line(text: BlockText) -> Option<BlockLine>
    ensures found { IfSome result (λ l. text ≡ l ∷ []) }
    ensures only { result ≡ None → length text ≢ 1 }
{
    let BlockText(mut lines) = text;
    let line = lines.pop()?;
    if lines.is_empty() { Some(line) } else { None }
}

// The items of a commit.
fn read_items(alloc: Global, text: &[u8]) -> Result<Option<BlockLine>, OutOfMemory>
    ensures found { IfOk result (λ o. IfSome o (λ l. (text.now ≡ items.line_text l) × items.IsGoodLine l)) }
    ensures only { IfOk result (λ o. o ≡ None
        → (l : List BlockItem) → items.IsGoodLine l → text.now ≡ items.line_text l → ⊥) }
{
    if without_last_line_feed(text).len() < text.len() {
        return Ok(None);
    }
    match read_block_text(alloc, text) {
        Ok(read) => Ok(only_line(read)),
        Err(BlockTextRefusal::At { .. }) => Ok(None),
        Err(BlockTextRefusal::OutOfMemory) => Err(OutOfMemory),
    }
}

// The commit of items on the queue of a digit.
fn read_commit(alloc: Global, digit: u8, text: &[u8]) -> Result<Option<LooseLine>, OutOfMemory>
    ensures found { IfOk result (λ o. IfSome o (λ l. (digit ∷ 32 ∷ text.now ≡ line_text l) × IsGoodLine l)) }
    ensures only { IfOk result (λ o. o ≡ None
        → (l : spelled.LooseLine) → IsGoodLine l → digit ∷ 32 ∷ text.now ≡ line_text l → ⊥) }
{
    let Some(queue) = read_queue(digit) else {
        return Ok(None);
    };
    match read_items(alloc, text)? {
        Some(items) => Ok(Some(LooseLine::Commit(queue, items))),
        None => Ok(None),
    }
}

// The drain of the queue of a digit.
fn read_done(digit: u8) -> Option<LooseLine>
    ensures found { IfSome result (λ l. (codes "done " ++ digit ∷ [] ≡ line_text l) × IsGoodLine l) }
    ensures only { result ≡ None
        → (l : spelled.LooseLine) → IsGoodLine l → codes "done " ++ digit ∷ [] ≡ line_text l → ⊥ }
{
    match read_queue(digit) {
        Some(queue) => Some(LooseLine::Done(queue)),
        None => None,
    }
}

// The digit and the items of what may be a commit.
fn commit_parts(text: &[u8]) -> Option<(u8, &[u8])>
    ensures found { IfSome result (λ r. text.now ≡ r.0 ∷ 32 ∷ r.1.now) }
    ensures only { result ≡ None → (digit : ℕ) (rest : List ℕ) → text.now ≡ digit ∷ 32 ∷ rest → ⊥ }
{
    match text {
        [digit, b' ', rest @ ..] => Some((*digit, rest)),
        _ => None,
    }
}

// The digit of what may be a drain.
fn done_digit(text: &[u8]) -> Option<u8>
    ensures found { IfSome result (λ d. text.now ≡ codes "done " ++ d ∷ []) }
    ensures only { result ≡ None → (d : ℕ) → text.now ≡ codes "done " ++ d ∷ [] → ⊥ }
{
    match text {
        [b'd', b'o', b'n', b'e', b' ', digit] => Some(*digit),
        _ => None,
    }
}

/// A line, if it is in the form.
pub fn read_loose_line(alloc: Global, text: &[u8]) -> Result<Option<LooseLine>, OutOfMemory>
    ensures found { IfOk result (λ o. IfSome o (λ l. (text.now ≡ line_text l) × IsGoodLine l)) }
    ensures only { IfOk result (λ o. o ≡ None
        → (l : spelled.LooseLine) → IsGoodLine l → text.now ≡ line_text l → ⊥) }
{
    if let Some((digit, items)) = commit_parts(text) {
        return read_commit(alloc, digit, items);
    }
    match done_digit(text) {
        Some(digit) => Ok(read_done(digit)),
        None => Ok(None),
    }
}
