// The answers to scripts that are not run.
ghost use Rattle.std.specs.Prelude.{◌≡◌, ℕ, IfOk};
ghost use Rattle.mq_command_run.specs.Lines.{script_line, scripts_line};

use crate::lines::{line_of_script, line_of_scripts};
use mq_blocks::OutOfMemory;
use mq_command_images::Answer;
use mq_command_io::REFUSED;
use mq_script::{ScriptCause, ScriptRefusal};
use std::alloc::Global;

/// The answer to a script that is refused at a line.
pub fn refuse_script(
    alloc: Global,
    name: &str,
    refusal: ScriptRefusal,
) -> Result<Answer, OutOfMemory>
    ensures { IfOk result (λ a. (line : ℕ)
        × (cause : ScriptCause)
        × (refusal ≡ ScriptRefusal.At line cause)
        × (a.status ≡ 2)
        × (a.text.items ≡ script_line name.now line cause)) }
{
    match refusal {
        ScriptRefusal::At { line, cause } => Ok(Answer {
            status: REFUSED,
            text: line_of_script(alloc, name, line, cause)?.into_bytes(),
        }),
        ScriptRefusal::OutOfMemory => Err(OutOfMemory),
    }
}

/// The answer to more scripts than queues.
pub fn refuse_scripts(alloc: Global, count: usize, queues: u32) -> Result<Answer, OutOfMemory>
    ensures { IfOk result (λ a. (a.status ≡ 2) × (a.text.items ≡ scripts_line count queues)) }
{
    Ok(Answer {
        status: REFUSED,
        text: line_of_scripts(alloc, count, queues)?.into_bytes(),
    })
}
