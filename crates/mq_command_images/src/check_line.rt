// The line of a verdict.
ghost use Rattle.std.specs.Prelude.{◌≡◌, IfOk};
ghost use Rattle.std.specs.String.{string_bytes};
ghost use Rattle.mq_command_images.specs.Checks.{verdict_line};

use crate::names::name_of_corrupt;
use mq_check::Verdict;
use std::alloc::{AllocError, Global};

/// The line that `check` prints for a verdict.
pub fn line_of_verdict(alloc: Global, verdict: Verdict) -> Result<String, AllocError>
    ensures { IfOk result (λ s. string_bytes s ≡ verdict_line verdict) }
{
    match verdict {
        Verdict::Sound {
            dirs,
            files,
            blocks,
        } => format!(in alloc; "sound dirs {dirs} files {files} blocks {blocks}\n"),
        Verdict::Unsound {
            phase,
            cause,
            block,
        } => {
            let name = name_of_corrupt(cause);
            let block = block.0;
            format!(in alloc; "unsound {phase} {name} block {block}\n")
        }
    }
}
