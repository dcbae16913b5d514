// The words of keys and values.
ghost use Rattle.std.specs.Prelude.{◌≡◌};
ghost use Rattle.mq_kv_text.specs.Files.{is_word};

use mq_block_text::are_visible;

/// Whether a word may be a key or a value.
pub fn is_word(bytes: &[u8]) -> bool
    ensures { result ≡ is_word bytes.now }
{
    !bytes.is_empty() && are_visible(bytes)
}
