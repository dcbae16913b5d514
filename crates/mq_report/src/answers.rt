// What each group was answered.
ghost use Rattle.std.specs.Prelude.{◌≡◌, ◌++◌, ◌∷◌, [], Ok, OnOk, map};
ghost use Rattle.std.specs.List.{All};
ghost use Rattle.mq_report.specs.Lines.{answer_of, call_answer, drive_answer};
ghost use Rattle.mq_report.specs.Ranges.{IsSmallAnswer, IsSmallTold};
ghost use Rattle.mq_report.specs.Texts.{after_spaces, answer_words, spaced, spelled, told_line};

use crate::line::Told;
use crate::words::{put_drawn, put_named, put_number, put_word};
use mq_blocks::{OutOfMemory, TxNo};
use mq_queue_side::{CallCause, Cause, Refusal};

/// Writes why the drive refused a group that had drawn this number.
fn put_cause(out: &mut Vec<u8>, cause: Cause, drawn: Option<TxNo>) -> Result<(), OutOfMemory>
    ensures text { OnOk result (out.new.items ≡ out.old.items ++ after_spaces (answer_words (drive_answer cause drawn))) }
    ensures small { OnOk result (IsSmallAnswer (drive_answer cause drawn)) }
{
    match cause {
        Cause::Off => {
            put_word(out, b"off")?;
            put_drawn(out, drawn)
        }
        Cause::Failed { tx, status } => {
            put_named(out, b"failed", tx.0)?;
            put_number(out, u64::from(status))?;
            put_drawn(out, drawn)
        }
        Cause::FailedHome { block, status } => {
            put_named(out, b"home", u64::from(block.0))?;
            put_number(out, u64::from(status))
        }
        Cause::Stopped { tx, .. } => {
            put_named(out, b"stopped", tx.0)?;
            put_drawn(out, drawn)
        }
    }
}

/// Writes why a group was refused.
fn put_refusal(out: &mut Vec<u8>, refusal: Refusal) -> Result<(), OutOfMemory>
    ensures text { OnOk result (out.new.items ≡ out.old.items ++ after_spaces (answer_words (call_answer refusal.cause refusal.drawn))) }
    ensures small { OnOk result (IsSmallAnswer (call_answer refusal.cause refusal.drawn)) }
{
    let Refusal { cause, drawn } = refusal;
    match cause {
        CallCause::OutOfMemory => put_word(out, b"memory"),
        CallCause::TooLarge { count, .. } => put_named(out, b"large", u64::from(count)),
        CallCause::Changes { index } => put_named(out, b"changes", u64::from(index)),
        CallCause::Drive(cause) => put_cause(out, cause, drawn),
    }
}

fn put_answer(out: &mut Vec<u8>, answer: Result<TxNo, Refusal>) -> Result<(), OutOfMemory>
    ensures text { OnOk result (out.new.items ≡ out.old.items ++ after_spaces (answer_words (answer_of answer))) }
    ensures small { OnOk result (IsSmallAnswer (answer_of answer)) }
{
    match answer {
        Ok(number) => put_named(out, b"ok", number.0),
        Err(refusal) => put_refusal(out, refusal),
    }
}

fn put_told(out: &mut Vec<u8>, told: &Told) -> Result<(), OutOfMemory>
    ensures text { OnOk result (out.new.items ≡ out.old.items ++ spaced (told_line told.now) ++ 10 ∷ []) }
    ensures small { OnOk result (IsSmallTold told.now) }
{
    out.extend_from_slice(b"answer")?;
    put_number(out, u64::from(told.session))?;
    put_number(out, u64::from(told.group))?;
    put_answer(out, told.answer)?;
    out.push(b'\n')?;
    Ok(())
}

/// Writes each answer on a line.
pub fn put_answers(out: &mut Vec<u8>, answers: &[Told]) -> Result<(), OutOfMemory>
    ensures text { OnOk result (out.new.items ≡ out.old.items ++ spelled (map told_line answers.now)) }
    ensures small { OnOk result (All IsSmallTold answers.now) }
{
    for told in answers {
        put_told(out, told)?;
    }
    Ok(())
}
