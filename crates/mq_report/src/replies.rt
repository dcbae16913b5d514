// The replies of a group, each on a line below its entry.
ghost use Rattle.std.specs.Prelude.{◌≡◌, ◌++◌, ◌∷◌, [], OnOk, map};
ghost use Rattle.mq_report.specs.Texts.{after_spaces, data_words, fault_word, reply_line, reply_words, spaced, spelled};

use crate::words::{put_named, put_number, put_word};
use mq_blocks::OutOfMemory;
use mq_tree::{Fault, Name, Reply};
use std::alloc::Global;

fn fault_name(fault: Fault) -> &'static [u8]
    ensures { result.now ≡ fault_word fault }
{
    match fault {
        Fault::NotFound => b"NotFound",
        Fault::Exists => b"Exists",
        Fault::NotDir => b"NotDir",
        Fault::IsDir => b"IsDir",
        Fault::NotEmpty => b"NotEmpty",
        Fault::BadName => b"BadName",
        Fault::TooBig => b"TooBig",
        Fault::Subtree => b"Subtree",
        Fault::NoSpace => b"NoSpace",
        Fault::NoInodes => b"NoInodes",
        Fault::Links => b"Links",
    }
}

/// Writes the number of bytes, and two digits for each.
fn put_bytes(alloc: Global, out: &mut Vec<u8>, bytes: &[u8]) -> Result<(), OutOfMemory>
    ensures { OnOk result (out.new.items ≡ out.old.items ++ after_spaces (data_words bytes.now)) }
{
    put_number(out, bytes.len() as u64)?;
    if !bytes.is_empty() {
        put_word(out, hex::encode(alloc, bytes)?.as_bytes())?;
    }
    Ok(())
}

fn put_names(out: &mut Vec<u8>, names: &[Name]) -> Result<(), OutOfMemory>
    ensures { OnOk result (out.new.items ≡ out.old.items ++ after_spaces names.now) }
{
    for name in names {
        put_word(out, &name.0)?;
    }
    Ok(())
}

/// Writes a space and a reply.
fn put_reply(alloc: Global, out: &mut Vec<u8>, reply: &Reply) -> Result<(), OutOfMemory>
    ensures { OnOk result (out.new.items ≡ out.old.items ++ after_spaces (reply_words reply.now)) }
{
    match reply {
        Reply::Ok => put_word(out, b"ok"),
        Reply::Data(bytes) => {
            put_word(out, b"data")?;
            put_bytes(alloc, out, &bytes.0)
        }
        Reply::Names(names) => {
            put_word(out, b"names")?;
            put_names(out, &names.0)
        }
        Reply::File(size) => put_named(out, b"file", *size),
        Reply::Dir(count) => put_named(out, b"dir", *count),
        Reply::Refused(fault) => {
            put_word(out, b"refused")?;
            put_word(out, fault_name(*fault))
        }
    }
}

fn put_reply_line(alloc: Global, out: &mut Vec<u8>, reply: &Reply) -> Result<(), OutOfMemory>
    ensures { OnOk result (out.new.items ≡ out.old.items ++ spaced (reply_line reply.now) ++ 10 ∷ []) }
{
    out.push(b' ')?;
    put_reply(alloc, out, reply)?;
    out.push(b'\n')?;
    Ok(())
}

/// Writes each reply on a line.
pub fn put_replies(alloc: Global, out: &mut Vec<u8>, replies: &[Reply]) -> Result<(), OutOfMemory>
    ensures { OnOk result (out.new.items ≡ out.old.items ++ spelled (map reply_line replies.now)) }
{
    for reply in replies {
        put_reply_line(alloc, out, reply)?;
    }
    Ok(())
}
