// Printing a script.
ghost use Rattle.std.specs.Prelude.{◌≡◌, ◌<◌, ◌++◌, ◌∷◌, IfOk, OnOk, decimal};
ghost use Rattle.std.specs.List.{list_all};
ghost use Rattle.mq_block_text.specs.Text.{hex_digit};
ghost use Rattle.mq_tree.specs.Listings.{names_text, path_text};
ghost use Rattle.mq_script.specs.Printing.{pairs_text, is_quotable, data_text};
ghost use Rattle.mq_script.specs.Printing.{request_text, end_text, requests_text, groups_text, script_text};

use crate::group::{End, Group, Script};
use itoa::Buffer;
use mq_blocks::OutOfMemory;
use mq_tree::{Name, Path, Request};
use std::alloc::Global;

fn put_names(out: &mut Vec<u8>, names: &[Name]) -> Result<(), OutOfMemory>
    ensures { OnOk result (out.new.items ≡ out.old.items ++ names_text names.now) }
{
    for name in names {
        out.push(b'/')?;
        out.extend_from_slice(&name.0)?;
    }
    Ok(())
}

fn put_path(out: &mut Vec<u8>, path: &Path) -> Result<(), OutOfMemory>
    ensures { OnOk result (out.new.items ≡ out.old.items ++ path_text path.now) }
{
    if path.0.is_empty() {
        out.push(b'/')?;
    }
    put_names(out, &path.0)
}

/// Writes a space and a number.
fn put_number(out: &mut Vec<u8>, number: u64) -> Result<(), OutOfMemory>
    ensures { OnOk result (out.new.items ≡ out.old.items ++ 32 ∷ decimal number) }
{
    let mut digits = Buffer::new();
    out.push(b' ')?;
    out.extend_from_slice(digits.format(number).as_bytes())?;
    Ok(())
}

/// The lower-case digit of a number below 16.
fn digit(number: u8) -> u8
    requires { number < 16 }
    ensures { result ≡ hex_digit number }
{
    if number < 10 {
        b'0' + number
    } else {
        b'a' - 10 + number
    }
}

/// Writes two digits for each byte.
fn put_pairs(out: &mut Vec<u8>, bytes: &[u8]) -> Result<(), OutOfMemory>
    ensures { OnOk result (out.new.items ≡ out.old.items ++ pairs_text bytes.now) }
{
    for byte in bytes {
        out.push(digit(*byte / 16))?;
        out.push(digit(*byte % 16))?;
    }
    Ok(())
}

/// Whether bytes may stand between quotes.
fn are_quotable(bytes: &[u8]) -> bool
    ensures { result ≡ list_all is_quotable bytes.now }
{
    bytes.iter().all(|b| *b >= b' ' && *b <= b'~' && *b != b'"')
}

/// Writes a space and data, between quotes if they may stand there.
fn put_data(out: &mut Vec<u8>, bytes: &[u8]) -> Result<(), OutOfMemory>
    ensures { OnOk result (out.new.items ≡ out.old.items ++ 32 ∷ data_text bytes.now) }
{
    if are_quotable(bytes) {
        out.extend_from_slice(b" \"")?;
        out.extend_from_slice(bytes)?;
        out.push(b'"')?;
        return Ok(());
    }
    out.extend_from_slice(b" hex:")?;
    put_pairs(out, bytes)
}

/// Writes the verb of a request, a space and its path.
fn put_verb(out: &mut Vec<u8>, verb: &[u8], path: &Path) -> Result<(), OutOfMemory>
    ensures { OnOk result (out.new.items ≡ out.old.items ++ verb.now ++ path_text path.now) }
{
    out.extend_from_slice(verb)?;
    put_path(out, path)
}

fn put_request(out: &mut Vec<u8>, request: &Request) -> Result<(), OutOfMemory>
    ensures { OnOk result (out.new.items ≡ out.old.items ++ request_text request.now) }
{
    match request {
        Request::Mkdir(path) => put_verb(out, b"mkdir ", path),
        Request::Create(path) => put_verb(out, b"create ", path),
        Request::Unlink(path) => put_verb(out, b"unlink ", path),
        Request::Rmdir(path) => put_verb(out, b"rmdir ", path),
        Request::List(path) => put_verb(out, b"list ", path),
        Request::Stat(path) => put_verb(out, b"stat ", path),
        Request::Write(path, offset, bytes) => {
            put_verb(out, b"write ", path)?;
            put_number(out, *offset)?;
            put_data(out, &bytes.0)
        }
        Request::Truncate(path, size) => {
            put_verb(out, b"truncate ", path)?;
            put_number(out, *size)
        }
        Request::Rename(from, to) => {
            put_verb(out, b"rename ", from)?;
            put_verb(out, b" ", to)
        }
        Request::Link(from, to) => {
            put_verb(out, b"link ", from)?;
            put_verb(out, b" ", to)
        }
        Request::Read(path, offset, count) => {
            put_verb(out, b"read ", path)?;
            put_number(out, *offset)?;
            put_number(out, *count)
        }
    }
}

fn end_line(end: End) -> &'static [u8]
    ensures { result.now ≡ end_text end }
{
    match end {
        End::Fsync => b"fsync\n",
        End::Fatomic => b"fatomic\n",
        End::Ask => b"ask\n",
    }
}

/// Writes each request on a line.
fn put_requests(out: &mut Vec<u8>, requests: &[Request]) -> Result<(), OutOfMemory>
    ensures { OnOk result (out.new.items ≡ out.old.items ++ requests_text requests.now) }
{
    for request in requests {
        put_request(out, request)?;
        out.push(b'\n')?;
    }
    Ok(())
}

fn put_groups(out: &mut Vec<u8>, groups: &[Group]) -> Result<(), OutOfMemory>
    ensures { OnOk result (out.new.items ≡ out.old.items ++ groups_text groups.now) }
{
    for group in groups {
        put_requests(out, &group.requests)?;
        out.extend_from_slice(end_line(group.end))?;
    }
    Ok(())
}

/// The text of a script.
pub fn print_script(alloc: Global, s: &Script) -> Result<Vec<u8>, OutOfMemory>
    ensures { IfOk result (λ v. v.items ≡ script_text s.now) }
{
    let mut out = Vec::new(alloc);
    put_groups(&mut out, &s.groups)?;
    Ok(out)
}
