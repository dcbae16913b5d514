// The path of `cat`.
ghost use Rattle.std.specs.Prelude.{◌≡◌, ◌⊎◌, None, Some, MatchResult};
ghost use Rattle.mq_cli.specs.Asked.{path_within};

use crate::refusal::WordsRefusal;
use mq_block_text::are_visible;
use mq_script::{LineRefusal, read_path};
use mq_tree::Path;
use std::alloc::Global;

/// The path of a word.
pub fn path_of(alloc: Global, word: &str) -> Result<Path, WordsRefusal>
    ensures { MatchResult result (λ p. path_within word.now ≡ Some p)
        (λ e. (e ≡ WordsRefusal.OutOfMemory)
        ⊎ ((e ≡ WordsRefusal.Unknown) × (path_within word.now ≡ None))) }
{
    if !are_visible(word.as_bytes()) {
        return Err(WordsRefusal::Unknown);
    }
    match read_path(alloc, word.as_bytes()) {
        Ok(path) => Ok(path),
        Err(LineRefusal::Cause(_)) => Err(WordsRefusal::Unknown),
        Err(LineRefusal::OutOfMemory) => Err(WordsRefusal::OutOfMemory),
    }
}
