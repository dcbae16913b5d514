// The lines of scripts that are not run.
ghost use Rattle.std.specs.Prelude.{◌≡◌, IfOk};
ghost use Rattle.std.specs.String.{string_bytes};
ghost use Rattle.mq_command_run.specs.Lines.{cause_name, script_line, scripts_line};

use mq_script::ScriptCause;
use std::alloc::{AllocError, Global};

fn name_of_cause(cause: ScriptCause) -> &'static str
    ensures { result.now ≡ cause_name cause }
{
    match cause {
        ScriptCause::Size => "Size",
        ScriptCause::Bytes => "Bytes",
        ScriptCause::Verb => "Verb",
        ScriptCause::Arguments => "Arguments",
        ScriptCause::Path => "Path",
        ScriptCause::Number => "Number",
        ScriptCause::Data => "Data",
        ScriptCause::Open => "Open",
    }
}

pub fn line_of_script(
    alloc: Global,
    name: &str,
    line: u32,
    cause: ScriptCause,
) -> Result<String, AllocError>
    ensures { IfOk result (λ s. string_bytes s ≡ script_line name.now line cause) }
{
    let cause = name_of_cause(cause);
    format!(in alloc; "script {name} line {line}: {cause}\n")
}

pub fn line_of_scripts(alloc: Global, count: usize, queues: u32) -> Result<String, AllocError>
    ensures { IfOk result (λ s. string_bytes s ≡ scripts_line count queues) }
{
    format!(in alloc; "scripts {count} queues {queues}\n")
}
