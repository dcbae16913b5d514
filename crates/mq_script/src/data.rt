// The bytes that a request writes.
ghost use Rattle.std.specs.Prelude.{◌≡◌};
ghost use Rattle.std.specs.Option.{ok_or};
ghost use Rattle.mq_script.specs.Answers.{Agrees};
ghost use Rattle.mq_script.specs.Words.{quoted_in, pairs_in, fill_in, data_in};
ghost use Rattle.mq_script.specs.declared.refusal.ScriptCause.TheVariants.{Data as not_data};

use crate::refusal::{LineRefusal, ScriptCause};
use mq_block_text::{byte_of, number_of};
use mq_tree::Bytes;
use std::alloc::Global;

/// The greatest count in data of the form of a byte and a count, which is the greatest size of a
/// file.
const FILL_LIMIT: u64 = 4_243_456;

/// The bytes before the quote at the end of the text, which is the only quote.
fn read_quoted(alloc: Global, text: &[u8]) -> Result<Bytes, LineRefusal>
    ensures { Agrees (ok_or (quoted_in text.now) not_data) result }
{
    let Some(front) = text.strip_suffix(b"\"".as_slice()) else {
        return Err(LineRefusal::Cause(ScriptCause::Data));
    };
    if front.contains(&b'"') {
        return Err(LineRefusal::Cause(ScriptCause::Data));
    }
    Ok(Bytes(Vec::from_slice(alloc, front)?))
}

/// The bytes of pairs of hexadecimal digits.
fn read_pairs(alloc: Global, digits: &[u8]) -> Result<Bytes, LineRefusal>
    ensures { Agrees (ok_or (pairs_in digits.now) not_data) result }
{
    if digits.len() % 2 != 0 {
        return Err(LineRefusal::Cause(ScriptCause::Data));
    }
    let mut bytes = Vec::with_capacity(alloc, digits.len() / 2)?;
    for i in 0..digits.len() / 2 {
        match byte_of(digits[2 * i], digits[2 * i + 1]) {
            Some(byte) => bytes.push(byte)?,
            None => return Err(LineRefusal::Cause(ScriptCause::Data)),
        }
    }
    Ok(Bytes(bytes))
}

/// As many bytes of one value as a count says.
fn read_fill(alloc: Global, text: &[u8]) -> Result<Bytes, LineRefusal>
    ensures { Agrees (ok_or (fill_in text.now) not_data) result }
{
    let [high, low, b':', count @ ..] = text else {
        return Err(LineRefusal::Cause(ScriptCause::Data));
    };
    let Some(byte) = byte_of(*high, *low) else {
        return Err(LineRefusal::Cause(ScriptCause::Data));
    };
    match number_of(count) {
        Some(count) if count <= FILL_LIMIT => Ok(Bytes(Vec::from_elem(
            alloc,
            byte,
            count as usize,
        )?)),
        _ => Err(LineRefusal::Cause(ScriptCause::Data)),
    }
}

/// Data in any of its three forms.
pub fn read_data(alloc: Global, text: &[u8]) -> Result<Bytes, LineRefusal>
    ensures { Agrees (ok_or (data_in text.now) not_data) result }
{
    if let Some(quoted) = text.strip_prefix(b"\"".as_slice()) {
        return read_quoted(alloc, quoted);
    }
    if let Some(digits) = text.strip_prefix(b"hex:".as_slice()) {
        return read_pairs(alloc, digits);
    }
    match text.strip_prefix(b"fill:".as_slice()) {
        Some(fill) => read_fill(alloc, fill),
        None => Err(LineRefusal::Cause(ScriptCause::Data)),
    }
}
