// Paths.
ghost use Rattle.std.specs.Prelude.{◌≡◌};
ghost use Rattle.std.specs.Option.{ok_or};
ghost use Rattle.mq_script.specs.Answers.{Agrees};
ghost use Rattle.mq_script.specs.Words.{path_in};
ghost use Rattle.mq_script.specs.declared.refusal.ScriptCause.TheVariants.{Path as not_a_path};

use crate::refusal::{LineRefusal, ScriptCause};
use mq_block_text::cut_at;
use mq_tree::{Name, Path};
use std::alloc::Global;

/// The names of a path, which need not be good ones.
pub fn read_path(alloc: Global, text: &[u8]) -> Result<Path, LineRefusal>
    ensures { Agrees (ok_or (path_in text.now) not_a_path) result }
{
    let Some(rest) = text.strip_prefix(b"/".as_slice()) else {
        return Err(LineRefusal::Cause(ScriptCause::Path));
    };
    let mut names = Vec::new(alloc);
    if rest.is_empty() {
        return Ok(Path(names));
    }
    let parts = cut_at(alloc, rest, b'/')?;
    for part in &parts {
        names.push(Name(Vec::from_slice(alloc, part)?))?;
    }
    Ok(Path(names))
}
