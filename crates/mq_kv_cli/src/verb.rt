// The commands by name.
ghost use Rattle.std.specs.Prelude.{◌≡◌};
ghost use Rattle.mq_kv_cli.specs.Syntax.{verb_of, verb_text};

/// A command's name.
#[derive(Clone, Copy, PartialEq, Eq)]
pub enum Verb {
    New,
    Apply,
}

impl Verb {
    /// The word of the name.
    pub fn name<'a>(self) -> &'a str
        ensures { result.now ≡ verb_text self }
    {
        match self {
            Verb::New => "new",
            Verb::Apply => "apply",
        }
    }
}

/// The command that a word names.
pub fn read_verb(word: &str) -> Option<Verb>
    ensures { result ≡ verb_of word.now }
{
    match word {
        "new" => Some(Verb::New),
        "apply" => Some(Verb::Apply),
        _ => None,
    }
}
