// What the program says of itself.
ghost use Rattle.std.specs.Prelude.{ℕ, List};
ghost use Rattle.mq_command_io.specs.Ending.{EndsWith};
ghost use Rattle.mq_kv_cli.specs.Help.{help_text, version_line as version_text};

use mq_command_io::{DONE, say};
use mq_kv_cli::{Verb, help_on, version_line};
use mq_outside::Sink;

/// Prints the help on a command, or on the program.
pub fn say_help<K: Sink>(topic: Option<Verb>, out: &mut K) -> u8
    ensures { EndsWith 0 (help_text topic) result (K.state out.old) (K.state out.new) }
{
    say(DONE, help_on(topic).as_bytes(), out)
}

/// Prints the program's name and version.
pub fn say_version<K: Sink>(out: &mut K) -> u8
    ensures { EndsWith 0 version_text result (K.state out.old) (K.state out.new) }
{
    say(DONE, version_line().as_bytes(), out)
}
