// The words of lines: queues, blocks, and blocks with their bytes.
ghost use Rattle.std.specs.Prelude.{◌≡◌, map};
ghost use Rattle.std.specs.Option.{option_map};
ghost use Rattle.mq_block_text.specs.Words.{one_of, two_of};
ghost use Rattle.mq_audit.specs.Words.{queue_in, block_in, set_in};

use mq_block_text::{byte_of, number_of};
use mq_blocks::{BlockNo, Geometry, QueueNo};

/// The queue of a word, which the geometry has.
pub fn queue_of(geometry: Geometry, word: &[u8]) -> Option<QueueNo>
    ensures { result ≡ queue_in geometry word.now }
{
    let number = number_of(word)?;
    if number < u64::from(geometry.queues()) {
        Some(QueueNo(number as u32))
    } else {
        None
    }
}

/// The block of a word, which is one of the geometry's home blocks.
pub fn block_of(geometry: Geometry, word: &[u8]) -> Option<BlockNo>
    ensures { result ≡ block_in geometry word.now }
{
    let number = number_of(word)?;
    if number < u64::from(geometry.homes()) {
        Some(BlockNo(number as u32))
    } else {
        None
    }
}

/// The block of a word, and the byte that all of it gets.
pub fn set_of(geometry: Geometry, word: &[u8]) -> Option<(BlockNo, u8)>
    ensures { result ≡ set_in geometry word.now }
{
    if word.len() < 3 {
        return None;
    }
    let (number, rest) = word.split_at(word.len() - 3);
    let [b'=', high, low] = *rest else {
        return None;
    };
    let block = block_of(geometry, number)?;
    let byte = byte_of(high, low)?;
    Some((block, byte))
}

/// The only word.
pub fn one_word<'a>(words: &[&'a [u8]]) -> Option<&'a [u8]>
    ensures { option_map (λ w. w.now) result ≡ one_of (map (λ w. w.now) words.now) }
{
    match words {
        [one] => Some(one),
        _ => None,
    }
}

/// The only two words.
pub fn two_words<'a>(words: &[&'a [u8]]) -> Option<(&'a [u8], &'a [u8])>
    ensures { option_map (λ w. (w.0.now, w.1.now)) result ≡ two_of (map (λ w. w.now) words.now) }
{
    match words {
        [one, two] => Some((one, two)),
        _ => None,
    }
}
