// What words ask by the first of them.
ghost use Rattle.std.specs.Prelude.{map};
ghost use Rattle.std.specs.String.{string_bytes};
ghost use Rattle.mq_cli.specs.Asked.{Reads, first_in};

use crate::help::asks_help;
use crate::refusal::WordsRefusal;

/// What words ask, as far as the first of them says.
#[derive(Clone, Copy)]
pub enum First<V> {
    /// Help on a command, or on the program.
    Help(Option<V>),
    Version,
    /// What the words of a command ask.
    Command(V),
}

/// What words ask of which the first names this command, or none.
pub fn read_first<V: Copy>(
    verb: Option<V>,
    word: &str,
    words: &[String],
) -> Result<First<V>, WordsRefusal>
    ensures { Reads (λ f. f) (first_in verb word.now (map string_bytes words.now)) result }
{
    match verb {
        None => match word {
            "--help" => Ok(First::Help(None)),
            "--version" => Ok(First::Version),
            _ => Err(WordsRefusal::Unknown),
        },
        Some(verb) if asks_help(words) => Ok(First::Help(Some(verb))),
        Some(verb) => Ok(First::Command(verb)),
    }
}
