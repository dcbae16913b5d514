// A whole script.
ghost use Rattle.std.specs.Prelude.{IfOk};
ghost use Rattle.mq_script.specs.Answers.{AgreesAt, IsAt};
ghost use Rattle.mq_script.specs.Reading.{script_in};
ghost use Rattle.mq_script.specs.Spelled.{Spells};

use crate::group::{Group, Script};
use crate::line::{Line, read_line};
use crate::refusal::{LineRefusal, ScriptCause, ScriptRefusal};
use mq_block_text::cut_lines;
use std::alloc::Global;
use std::mem;

/// The greatest number of bytes of a script.
const SIZE_LIMIT: usize = 16_777_216;

/// The refusal of a line, at its number.
fn refused_at(line: u32, refusal: LineRefusal) -> ScriptRefusal
    ensures { IsAt line refusal result }
{
    match refusal {
        LineRefusal::Cause(cause) => ScriptRefusal::At { line, cause },
        LineRefusal::OutOfMemory => ScriptRefusal::OutOfMemory,
    }
}

/// The script of a text.
pub fn read_script(alloc: Global, bytes: &[u8]) -> Result<Script, ScriptRefusal>
    ensures agrees { AgreesAt (script_in bytes.now) result }
    ensures spelled { IfOk result (λ script. Spells bytes.now script) }
{
    read_groups(alloc, bytes)
}

/// The groups of a text.
fn read_groups(alloc: Global, bytes: &[u8]) -> Result<Script, ScriptRefusal>
    ensures { AgreesAt (script_in bytes.now) result }
{
    if bytes.len() > SIZE_LIMIT {
        let cause = ScriptCause::Size;
        return Err(ScriptRefusal::At { line: 0, cause });
    }
    let lines = cut_lines(alloc, bytes)?;
    let mut groups = Vec::new(alloc);
    let mut requests = Vec::new(alloc);
    let mut line = 0;
    for text in &lines {
        line += 1;
        match read_line(alloc, text) {
            Ok(Line::Asks(request)) => requests.push(request)?,
            Ok(Line::Ends(end)) => {
                let requests = mem::replace(&mut requests, Vec::new(alloc));
                groups.push(Group { requests, end })?;
            }
            Err(refusal) => return Err(refused_at(line, refusal)),
        }
    }
    if !requests.is_empty() {
        let cause = ScriptCause::Open;
        return Err(ScriptRefusal::At { line, cause });
    }
    Ok(Script { groups })
}
