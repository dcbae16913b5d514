// An item of a line: a block that is set or freed.
ghost use Rattle.std.specs.Prelude.{◌≡◌, ◌<◌, ◌≤◌, ◌^◌, ◌∷◌, [], ℕ, List, IfErr, IfOk, IfSome, Some};
ghost use Rattle.mq_block_text.specs.declared.item.BlockItem.{BlockItem};
ghost use Rattle.mq_block_text.specs.Refusals.{RefusesWord};
ghost use Rattle.mq_block_text.specs.Text.{hex_digit, hex_text, free_text, set_text, item_text, IsGoodItem};

use crate::number::read_number;
use crate::refusal::BlockTextCause;
use mq_blocks::BlockNo;

/// What a line does with one block.
#[derive(Clone, Copy, PartialEq, Eq)]
pub enum BlockItem {
    /// Every byte of the block is set to this one.
    Set(BlockNo, u8),
    Free(BlockNo),
}

impl BlockItem {
    ghost use Rattle.mq_block_text.specs.Text.{block_of};

    /// The block that the item names.
    pub fn block(&self) -> BlockNo
        ensures { result ≡ block_of self.now }
    {
        match self {
            BlockItem::Set(block, _) => *block,
            BlockItem::Free(block) => *block,
        }
    }
}

/// The value of a lower-case hexadecimal digit.
fn read_hex_digit(digit: u8) -> Option<u8>
    ensures found { IfSome result (λ d. (d < 16) × (digit ≡ hex_digit d)) }
    ensures only { (d : ℕ) → d < 16 → digit ≡ hex_digit d → result ≡ Some d }
{
    match digit {
        b'0'..=b'9' => Some(digit - b'0'),
        b'a'..=b'f' => Some(digit - b'a' + 10),
        _ => None,
    }
}

/// The byte of two lower-case hexadecimal digits.
pub fn read_hex(high: u8, low: u8) -> Option<u8>
    ensures found { IfSome result (λ v. (v ≤ 255) × (hex_text v ≡ high ∷ low ∷ [])) }
    ensures only { (v : ℕ) → v < 256 → high ∷ low ∷ [] ≡ hex_text v → result ≡ Some v }
{
    let high = read_hex_digit(high)?;
    let low = read_hex_digit(low)?;
    Some(high * 16 + low)
}

/// An item that sets a block: the block's number, and the byte.
fn read_set(text: &[u8]) -> Option<(u64, u8)>
    ensures found { IfSome result (λ r. (r.0 < 2 ^ 64) × (r.1 ≤ 255) × (text.now ≡ set_text r.0 r.1)) }
    ensures only { (b v : ℕ) → b < 2 ^ 64 → v ≤ 255 → text.now ≡ set_text b v → result ≡ Some (b, v) }
{
    if text.len() < 3 {
        return None;
    }
    let (number, rest) = text.split_at(text.len() - 3);
    let [b'=', high, low] = *rest else {
        return None;
    };
    let block = read_number(number)?;
    let byte = read_hex(high, low)?;
    Some((block, byte))
}

/// An item that frees a block: the block's number.
fn read_free(text: &[u8]) -> Option<u64>
    ensures found { IfSome result (λ n. (n < 2 ^ 64) × (text.now ≡ free_text n)) }
    ensures only { (n : ℕ) → n < 2 ^ 64 → text.now ≡ free_text n → result ≡ Some n }
{
    match text {
        [b'-', number @ ..] => read_number(number),
        _ => None,
    }
}

/// A block that texts may name.
fn named_block(number: u64) -> Result<BlockNo, BlockTextCause>
    ensures ok { IfOk result (λ b. (b ≡ number) × (number ≤ 255)) }
    ensures refused { IfErr result (λ e. (e ≡ BlockTextCause.Block) × (255 < number)) }
{
    match u8::try_from(number) {
        Ok(block) => Ok(BlockNo(u32::from(block))),
        Err(_) => Err(BlockTextCause::Block),
    }
}

/// An item. Whether its block was named before is left to the caller.
pub fn read_item(text: &[u8]) -> Result<BlockItem, BlockTextCause>
    ensures ok { IfOk result (λ i. (text.now ≡ item_text i) × IsGoodItem i) }
    ensures refused { IfErr result (λ e. (before : List BlockItem) → RefusesWord before text.now e) }
{
    if let Some((number, byte)) = read_set(text) {
        return Ok(BlockItem::Set(named_block(number)?, byte));
    }
    match read_free(text) {
        Some(number) => Ok(BlockItem::Free(named_block(number)?)),
        None => Err(BlockTextCause::Item),
    }
}
