// The commands by name.
ghost use Rattle.std.specs.Prelude.{◌≡◌};
ghost use Rattle.mq_cli.specs.Syntax.{verb_of, verb_text};

/// A command's name.
#[derive(Clone, Copy, PartialEq, Eq)]
pub enum Verb {
    Blocks,
    Format,
    Run,
    Recover,
    Ls,
    Cat,
    Gen,
    Dump,
    Check,
    Audit,
    Replicate,
    Loose,
}

impl Verb {
    /// The word of the name.
    pub fn name<'a>(self) -> &'a str
        ensures { result.now ≡ verb_text self }
    {
        match self {
            Verb::Blocks => "blocks",
            Verb::Format => "format",
            Verb::Run => "run",
            Verb::Recover => "recover",
            Verb::Ls => "ls",
            Verb::Cat => "cat",
            Verb::Gen => "gen",
            Verb::Dump => "dump",
            Verb::Check => "check",
            Verb::Audit => "audit",
            Verb::Replicate => "replicate",
            Verb::Loose => "loose",
        }
    }
}

/// The names of all commands.
const VERBS: [Verb; 12] = [
    Verb::Blocks,
    Verb::Format,
    Verb::Run,
    Verb::Recover,
    Verb::Ls,
    Verb::Cat,
    Verb::Gen,
    Verb::Dump,
    Verb::Check,
    Verb::Audit,
    Verb::Replicate,
    Verb::Loose,
];

/// The command that a word names.
pub fn read_verb(word: &str) -> Option<Verb>
    ensures { result ≡ verb_of word.now }
{
    VERBS.iter().copied().find(|verb| word == verb.name())
}
