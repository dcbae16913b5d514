// A line: the items of one transaction.
ghost use Rattle.std.specs.Prelude.{◌≡◌, List, IfErr, IfOk, map};
ghost use Rattle.mq_block_text.specs.declared.item.BlockItem.{BlockItem};
ghost use Rattle.mq_block_text.specs.Refusals.{IsRefused, RefusesLine, RefusesWords};
ghost use Rattle.mq_block_text.specs.Text.{item_text, line_text, AreGoodItems, IsGoodLine};

use crate::item::{BlockItem, read_item};
use crate::parts::cut_at;
use crate::refusal::{BlockTextCause, BlockTextRefusal};
use std::alloc::Global;
use std::marker::Model;

/// The items of one transaction, in order.
#[derive(Drop)]
pub struct BlockLine(pub Vec<BlockItem>);

impl Model for BlockLine {
    ghost use Rattle.std.specs.Prelude.{List};
    ghost use Rattle.mq_block_text.specs.declared.item.BlockItem.{BlockItem};

    ghost Value = { List BlockItem };

    ghost view = { λ l. l.0.items };
}

impl BlockLine {
    ghost use Rattle.mq_block_text.specs.Text.{sets_in};

    /// The number of items that set a block.
    pub fn sets(&self) -> usize
        ensures { result ≡ sets_in self.now }
    {
        self.0
            .iter()
            .filter(|i| matches!(i, BlockItem::Set(..)))
            .count()
    }
}

/// The items of these words, which name no block twice. The line's number is for the refusal.
fn read_items(alloc: Global, line: u32, words: &[&[u8]]) -> Result<Vec<BlockItem>, BlockTextRefusal>
    ensures ok { IfOk result (λ v. (map (λ x. x.now) words.now ≡ map item_text v.items)
        × AreGoodItems v.items) }
    ensures refused { IfErr result (IsRefused (λ l cause. (l ≡ line)
        × RefusesWords (map (λ x. x.now) words.now) cause)) }
{
    let mut named = [false; 256];
    let mut items = Vec::new(alloc);
    for word in words {
        let item = match read_item(word) {
            Ok(item) => item,
            Err(cause) => return Err(BlockTextRefusal::At { line, cause }),
        };
        let block = item.block().0 as usize;
        if named[block] {
            let cause = BlockTextCause::Twice;
            return Err(BlockTextRefusal::At { line, cause });
        }
        named[block] = true;
        items.push(item)?;
    }
    Ok(items)
}

/// The items of a line. Its number is for the refusal.
pub fn read_line(alloc: Global, line: u32, text: &[u8]) -> Result<BlockLine, BlockTextRefusal>
    ensures ok { IfOk result (λ l. (text.now ≡ line_text l) × IsGoodLine l) }
    ensures refused { IfErr result (IsRefused (λ l cause. (l ≡ line)
        × ((before : List (List BlockItem)) → RefusesLine before text.now cause))) }
{
    if text.is_empty() {
        let cause = BlockTextCause::Empty;
        return Err(BlockTextRefusal::At { line, cause });
    }
    let words = cut_at(alloc, text, b' ')?;
    Ok(BlockLine(read_items(alloc, line, &words)?))
}
