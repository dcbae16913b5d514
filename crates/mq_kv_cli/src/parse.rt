// The commands as `clap` has them.
ghost use Rattle.std.specs.Prelude.{◌≡◌, IfOk};
ghost use Rattle.clap.specs.Words.{app_of};
ghost use Rattle.mq_kv_cli.specs.Syntax.{app_for};

use crate::syntax::{names, options};
use crate::verb::Verb;
use clap::Command;
use mq_cli::with_words;
use std::alloc::{AllocError, Global};

/// The command of a verb.
pub fn command_for<'a>(alloc: Global, verb: Verb) -> Result<Command<'a>, AllocError>
    ensures { IfOk result (λ c. app_of c ≡ app_for verb) }
{
    with_words(alloc, verb.name(), names(verb), None, options(verb))
}
