// A text cut into parts.
ghost use Rattle.std.specs.Prelude.{◌≡◌, ◌⊎◌, ◌==◌, ◌++◌, ◌∷◌, [], ℕ, List, IfOk, map};
ghost use Rattle.std.specs.List.{slice_split};
ghost use Rattle.mq_block_text.specs.Words.{lines_of};

use std::alloc::{AllocError, Global};

/// The parts between the bytes at which a text is cut.
pub fn cut_at(alloc: Global, text: &[u8], at: u8) -> Result<Vec<&[u8]>, AllocError>
    ensures { IfOk result (λ v. map (λ x. x.now) v.items ≡ slice_split (λ b. b == at) text.now) }
{
    text.split(|b| *b == at).collect(alloc)
}

/// The text without the line feed at its end, if it has one.
pub fn without_last_line_feed(text: &[u8]) -> &[u8]
    ensures { (text.now ≡ result.now ++ 10 ∷ [])
        ⊎ ((text.now ≡ result.now) × ((front : List ℕ) → text.now ≡ front ++ 10 ∷ [] → ⊥)) }
{
    match text {
        [front @ .., b'\n'] => front,
        _ => text,
    }
}

/// The lines of a text. The last may lack its line feed.
pub fn cut_lines(alloc: Global, bytes: &[u8]) -> Result<Vec<&[u8]>, AllocError>
    ensures { IfOk result (λ v. map (λ x. x.now) v.items ≡ lines_of bytes.now) }
{
    if bytes.is_empty() {
        return Ok(Vec::new(alloc));
    }
    match bytes.strip_suffix(b"\n".as_slice()) {
        Some(front) => cut_at(alloc, front, b'\n'),
        None => cut_at(alloc, bytes, b'\n'),
    }
}
