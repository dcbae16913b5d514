// Words of digits, and of visible characters.
ghost use Rattle.std.specs.Prelude.{◌≡◌};
ghost use Rattle.std.specs.List.{list_all};
ghost use Rattle.mq_block_text.specs.Words.{byte_in, is_visible, number_in};

use crate::item::read_hex;
use crate::number::read_number;

/// The byte of two digits.
pub fn byte_of(high: u8, low: u8) -> Option<u8>
    ensures { result ≡ byte_in high low }
{
    read_hex(high, low)
}

/// The number of a word.
pub fn number_of(word: &[u8]) -> Option<u64>
    ensures { result ≡ number_in word.now }
{
    read_number(word)
}

/// Whether all bytes are visible characters of ASCII.
pub fn are_visible(bytes: &[u8]) -> bool
    ensures { result ≡ list_all is_visible bytes.now }
{
    bytes.iter().all(|b| *b >= b'!' && *b <= b'~')
}
