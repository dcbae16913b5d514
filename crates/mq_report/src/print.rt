// The text of a report.
ghost use Rattle.std.specs.Prelude.{◌≡◌, ◌++◌, ◌∷◌, [], IfOk, OnOk};
ghost use Rattle.std.specs.List.{All};
ghost use Rattle.mq_script.specs.Spelled.{end_word};
ghost use Rattle.mq_report.specs.Ranges.{IsSmallLast, IsSmallLine};
ghost use Rattle.mq_report.specs.Reports.{IsReport, MayBeReported};
ghost use Rattle.mq_report.specs.Texts.{base_line, entry_line, entry_lines, entry_word, group_lines, last_line, report_lines, spaced, spelled};

use crate::answers::put_answers;
use crate::line::{Last, Line, Told};
use crate::replies::put_replies;
use crate::words::{put_named, put_number, put_word};
use mq_blocks::{OutOfMemory, TxNo};
use mq_script::End;
use std::alloc::Global;

fn end_name(end: End) -> &'static [u8]
    ensures { result.now ≡ end_word end }
{
    match end {
        End::Fsync => b"fsync",
        End::Fatomic => b"fatomic",
        End::Ask => b"ask",
    }
}

fn entry_name(commit: bool) -> &'static [u8]
    ensures { result.now ≡ entry_word commit }
{
    if commit { b"commit" } else { b"at" }
}

fn put_base(out: &mut Vec<u8>, base: TxNo) -> Result<(), OutOfMemory>
    ensures { OnOk result (out.new.items ≡ out.old.items ++ spaced (base_line base) ++ 10 ∷ []) }
{
    out.extend_from_slice(b"base")?;
    put_number(out, base.0)?;
    out.push(b'\n')?;
    Ok(())
}

fn put_entry(out: &mut Vec<u8>, line: &Line) -> Result<(), OutOfMemory>
    ensures text { OnOk result (out.new.items ≡ out.old.items ++ spaced (entry_line line.now) ++ 10 ∷ []) }
    ensures small { OnOk result (IsSmallLine line.now) }
{
    out.extend_from_slice(entry_name(line.commit))?;
    put_number(out, line.number.0)?;
    put_named(out, b"session", u64::from(line.session))?;
    put_named(out, b"group", u64::from(line.group))?;
    put_word(out, end_name(line.end))?;
    out.push(b'\n')?;
    Ok(())
}

/// Writes an entry and its replies below it.
fn put_group(alloc: Global, out: &mut Vec<u8>, line: &Line) -> Result<(), OutOfMemory>
    ensures text { OnOk result (out.new.items ≡ out.old.items ++ spelled (group_lines line.now)) }
    ensures small { OnOk result (IsSmallLine line.now) }
{
    put_entry(out, line)?;
    put_replies(alloc, out, &line.replies)
}

fn put_entries(alloc: Global, out: &mut Vec<u8>, entries: &[Line]) -> Result<(), OutOfMemory>
    ensures text { OnOk result (out.new.items ≡ out.old.items ++ spelled (entry_lines entries.now)) }
    ensures small { OnOk result (All IsSmallLine entries.now) }
{
    for line in entries {
        put_group(alloc, out, line)?;
    }
    Ok(())
}

/// Writes how a run ended, without a line feed.
fn put_last(out: &mut Vec<u8>, last: &Last) -> Result<(), OutOfMemory>
    ensures text { OnOk result (out.new.items ≡ out.old.items ++ spaced (last_line last.now)) }
    ensures small { OnOk result (IsSmallLast last.now) }
{
    match last {
        Last::Clean(number) => {
            out.extend_from_slice(b"clean")?;
            put_number(out, number.0)
        }
        Last::Cut(events) => {
            out.extend_from_slice(b"cut")?;
            put_number(out, *events)
        }
        Last::StoppedTx(tx) => {
            out.extend_from_slice(b"stopped tx")?;
            put_number(out, tx.0)
        }
        Last::StoppedBlock(block) => {
            out.extend_from_slice(b"stopped block")?;
            put_number(out, u64::from(block.0))
        }
    }
}

/// The text of a report: the base at the start, the entries with their replies, the answers, and how the
/// run ended. Where entries and answers stand in their order, and replies are bytes and good names, the text
/// has one reading.
pub fn report(
    alloc: Global,
    base: TxNo,
    entries: &[Line],
    answers: &[Told],
    last: &Last,
) -> Result<Vec<u8>, OutOfMemory>
    ensures text { IfOk result (λ r. r.items ≡ spelled (report_lines base entries.now answers.now last.now)) }
    ensures report { IfOk result (λ r. MayBeReported entries.now answers.now
        → IsReport r.items base entries.now answers.now last.now) }
{
    let mut out = Vec::new(alloc);
    put_base(&mut out, base)?;
    put_entries(alloc, &mut out, entries)?;
    put_answers(&mut out, answers)?;
    put_last(&mut out, last)?;
    out.push(b'\n')?;
    Ok(out)
}
