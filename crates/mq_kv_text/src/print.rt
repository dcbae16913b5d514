// What is printed.
ghost use Rattle.std.specs.Prelude.{◌≡◌, ◌++◌, ◌∷◌, [], IfOk, OnOk, codes, decimal, map, string_bytes};
ghost use Rattle.mq_block_text.specs.Refusals.{ended};
ghost use Rattle.mq_kv_text.specs.Reports.{bucket_text, fault_name, group_lines, groups_lines, last_line, misread_text, new_text, reply_text, report_text, synced_lines, usage_text};

use crate::report::{GroupReport, KvReport, LastLine, SyncedGroup};
use itoa::Buffer;
use mq_blocks::{BlockNo, OutOfMemory};
use mq_kv_buckets::{KvFault, KvReply};
use std::alloc::{AllocError, Global};

fn fault_name(fault: KvFault) -> &'static [u8]
    ensures { result.now ≡ fault_name fault }
{
    match fault {
        KvFault::KeySize => b"KeySize",
        KvFault::ValueSize => b"ValueSize",
        KvFault::BucketFull => b"BucketFull",
    }
}

/// Writes a word, a space and a number.
fn put_number(out: &mut Vec<u8>, word: &[u8], number: u64) -> Result<(), OutOfMemory>
    ensures { OnOk result (out.new.items ≡ out.old.items ++ word.now ++ 32 ∷ decimal number) }
{
    let mut digits = Buffer::new();
    out.extend_from_slice(word)?;
    out.push(b' ')?;
    out.extend_from_slice(digits.format(number).as_bytes())?;
    Ok(())
}

/// Writes the same on a line.
fn put_line(out: &mut Vec<u8>, word: &[u8], number: u64) -> Result<(), OutOfMemory>
    ensures { OnOk result (out.new.items ≡ out.old.items ++ ended 10 ((word.now ++ 32 ∷ decimal number) ∷ [])) }
{
    put_number(out, word, number)?;
    out.push(b'\n')?;
    Ok(())
}

fn put_reply(out: &mut Vec<u8>, reply: &KvReply) -> Result<(), OutOfMemory>
    ensures { OnOk result (out.new.items ≡ out.old.items ++ reply_text reply.now) }
{
    match reply {
        KvReply::Done => out.extend_from_slice(b"done")?,
        KvReply::Missing => out.extend_from_slice(b"missing")?,
        KvReply::Value(value) => {
            out.extend_from_slice(b"value ")?;
            out.extend_from_slice(&value.0)?;
        }
        KvReply::Refused(fault) => {
            out.extend_from_slice(b"refused ")?;
            out.extend_from_slice(fault_name(*fault))?;
        }
    }
    Ok(())
}

/// Writes each reply on a line.
fn put_replies(out: &mut Vec<u8>, replies: &[KvReply]) -> Result<(), OutOfMemory>
    ensures { OnOk result (out.new.items ≡ out.old.items ++ ended 10 (map reply_text replies.now)) }
{
    for reply in replies {
        put_reply(out, reply)?;
        out.push(b'\n')?;
    }
    Ok(())
}

/// Writes the replies of a group, and its number.
fn put_synced(out: &mut Vec<u8>, synced: &SyncedGroup) -> Result<(), OutOfMemory>
    ensures { OnOk result (out.new.items ≡ out.old.items ++ ended 10 (synced_lines synced.now)) }
{
    put_replies(out, &synced.replies)?;
    put_line(out, b"synced", synced.at.0)?;
    Ok(())
}

/// Writes what is reported of a group.
fn put_group(out: &mut Vec<u8>, group: &GroupReport) -> Result<(), OutOfMemory>
    ensures { OnOk result (out.new.items ≡ out.old.items ++ ended 10 (group_lines group.now)) }
{
    match group {
        GroupReport::Synced(synced) => put_synced(out, synced),
        GroupReport::Large { count } => put_line(out, b"large", u64::from(*count)),
        GroupReport::Off => {
            out.extend_from_slice(b"off\n")?;
            Ok(())
        }
    }
}

fn put_groups(out: &mut Vec<u8>, groups: &[GroupReport]) -> Result<(), OutOfMemory>
    ensures { OnOk result (out.new.items ≡ out.old.items ++ ended 10 (groups_lines groups.now)) }
{
    for group in groups {
        put_group(out, group)?;
    }
    Ok(())
}

fn put_last(out: &mut Vec<u8>, last: LastLine) -> Result<(), OutOfMemory>
    ensures { OnOk result (out.new.items ≡ out.old.items ++ ended 10 (last_line last ∷ [])) }
{
    match last {
        LastLine::Clean(number) => put_line(out, b"clean", number.0),
        LastLine::Cut(events) => put_line(out, b"cut", events),
    }
}

/// The text of a report.
pub fn print_report(alloc: Global, report: &KvReport) -> Result<Vec<u8>, OutOfMemory>
    ensures { IfOk result (λ v. v.items ≡ report_text report.now) }
{
    let mut out = Vec::new(alloc);
    put_groups(&mut out, &report.groups)?;
    put_last(&mut out, report.last)?;
    Ok(out)
}

/// The line that names the first line of a file that is not in the form.
pub fn print_misread(alloc: Global, line: u64) -> Result<String, AllocError>
    ensures { IfOk result (λ s. string_bytes s ≡ misread_text line) }
{
    format!(in alloc; "line {line}\n")
}

/// The line that names a bucket and the first of its bytes that is not in the form.
pub fn print_bucket(alloc: Global, block: BlockNo, offset: u32) -> Result<String, AllocError>
    ensures { IfOk result (λ s. string_bytes s ≡ bucket_text block offset) }
{
    let block = block.0;
    format!(in alloc; "bucket {block} {offset}\n")
}

/// The line for words that are not in the form of a call.
pub fn print_usage() -> &'static str
    ensures { result.now ≡ usage_text }
{
    "usage: mq_kv_tool new|apply\n"
}

/// The line for a store that was made.
pub fn print_new() -> &'static str
    ensures { result.now ≡ new_text }
{
    "new\n"
}
