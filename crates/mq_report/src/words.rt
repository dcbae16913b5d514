// The words of a line, each after a space.
ghost use Rattle.std.specs.Prelude.{◌≡◌, ◌++◌, ◌∷◌, OnOk, decimal};
ghost use Rattle.mq_report.specs.Ranges.{IsSmallDrawn};
ghost use Rattle.mq_report.specs.Texts.{drawn_word};

use itoa::Buffer;
use mq_blocks::{OutOfMemory, TxNo};

/// Writes a space and a word.
pub fn put_word(out: &mut Vec<u8>, word: &[u8]) -> Result<(), OutOfMemory>
    ensures { OnOk result (out.new.items ≡ out.old.items ++ 32 ∷ word.now) }
{
    out.push(b' ')?;
    out.extend_from_slice(word)?;
    Ok(())
}

/// Writes a space and a number.
pub fn put_number(out: &mut Vec<u8>, number: u64) -> Result<(), OutOfMemory>
    ensures { OnOk result (out.new.items ≡ out.old.items ++ 32 ∷ decimal number) }
{
    let mut digits = Buffer::new();
    put_word(out, digits.format(number).as_bytes())
}

/// Writes a space, a word, a space and a number.
pub fn put_named(out: &mut Vec<u8>, word: &[u8], number: u64) -> Result<(), OutOfMemory>
    ensures { OnOk result (out.new.items ≡ out.old.items ++ 32 ∷ word.now ++ 32 ∷ decimal number) }
{
    put_word(out, word)?;
    put_number(out, number)
}

/// Writes a space and the number, or a dash where none was drawn.
pub fn put_drawn(out: &mut Vec<u8>, drawn: Option<TxNo>) -> Result<(), OutOfMemory>
    ensures text { OnOk result (out.new.items ≡ out.old.items ++ 32 ∷ drawn_word drawn) }
    ensures small { OnOk result (IsSmallDrawn drawn) }
{
    match drawn {
        Some(number) => put_number(out, number.0),
        None => put_word(out, b"-"),
    }
}
