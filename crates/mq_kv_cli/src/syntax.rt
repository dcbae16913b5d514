// The names and options of each command.
ghost use Rattle.std.specs.Prelude.{◌≡◌, map};
ghost use Rattle.mq_kv_cli.specs.Syntax.{names_for, options_for};

use crate::verb::Verb;

/// The positional arguments of a command, in order, each of which is one word.
pub fn names<'a>(verb: Verb) -> &'a [&'a str]
    ensures { map (λ s. s.now) result.now ≡ names_for verb }
{
    match verb {
        Verb::New => &["image"],
        Verb::Apply => &["image", "file"],
    }
}

/// The options of a command, each of which takes a value.
pub fn options<'a>(verb: Verb) -> &'a [&'a str]
    ensures { map (λ s. s.now) result.now ≡ options_for verb }
{
    match verb {
        Verb::New => &[],
        Verb::Apply => &["cut", "pick"],
    }
}
