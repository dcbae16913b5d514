// The names and options of each command.
ghost use Rattle.std.specs.Prelude.{◌≡◌, map, option_map};
ghost use Rattle.mq_cli.specs.Syntax.{names_for, options_for, repeated_for};

use crate::verb::Verb;

/// The positional arguments of a command, in order, each of which is one word.
pub fn names<'a>(verb: Verb) -> &'a [&'a str]
    ensures { map (λ s. s.now) result.now ≡ names_for verb }
{
    match verb {
        Verb::Blocks => &["file"],
        Verb::Format => &["image", "queues", "area", "meta", "zone"],
        Verb::Run => &["image"],
        Verb::Recover => &["image"],
        Verb::Ls => &["image"],
        Verb::Cat => &["image", "path"],
        Verb::Gen => &["seed", "threads", "groups"],
        Verb::Dump => &["image"],
        Verb::Check => &["image"],
        Verb::Audit => &["trace"],
        Verb::Replicate => &["file"],
        Verb::Loose => &["file"],
    }
}

/// The last positional argument of a command, if it is one that takes one or more words.
pub fn repeated<'a>(verb: Verb) -> Option<&'a str>
    ensures { option_map (λ s. s.now) result ≡ repeated_for verb }
{
    match verb {
        Verb::Run => Some("scripts"),
        Verb::Blocks
        | Verb::Format
        | Verb::Recover
        | Verb::Ls
        | Verb::Cat
        | Verb::Gen
        | Verb::Dump
        | Verb::Check
        | Verb::Audit
        | Verb::Replicate
        | Verb::Loose => None,
    }
}

/// The options of a command, each of which takes a value.
pub fn options<'a>(verb: Verb) -> &'a [&'a str]
    ensures { map (λ s. s.now) result.now ≡ options_for verb }
{
    match verb {
        Verb::Blocks => &["cut", "pick", "again", "save", "trace"],
        Verb::Run => &["cut", "pick", "fail"],
        Verb::Recover => &["cut", "pick"],
        Verb::Gen => &["save"],
        Verb::Replicate => &["seed", "save"],
        Verb::Loose => &["cut", "pick", "save"],
        Verb::Format | Verb::Ls | Verb::Cat | Verb::Dump | Verb::Check | Verb::Audit => &[],
    }
}
