// The first words of lines.
ghost use Rattle.std.specs.Prelude.{◌≡◌};
ghost use Rattle.mq_script.specs.Verbs.{verb_in, verb_text};

/// What a line is: a request of a kind, or the end of a group.
#[derive(Clone, Copy)]
pub enum Verb {
    Mkdir,
    Create,
    Write,
    Truncate,
    Unlink,
    Rmdir,
    Rename,
    Link,
    Read,
    List,
    Stat,
    Fsync,
    Fatomic,
    Ask,
}

/// The verbs of lines.
const VERBS: [Verb; 14] = [
    Verb::Mkdir,
    Verb::Create,
    Verb::Write,
    Verb::Truncate,
    Verb::Unlink,
    Verb::Rmdir,
    Verb::Rename,
    Verb::Link,
    Verb::Read,
    Verb::List,
    Verb::Stat,
    Verb::Fsync,
    Verb::Fatomic,
    Verb::Ask,
];

/// The word that a line of a verb begins with.
fn verb_word(verb: Verb) -> &'static [u8]
    ensures { result.now ≡ verb_text verb }
{
    match verb {
        Verb::Mkdir => b"mkdir",
        Verb::Create => b"create",
        Verb::Write => b"write",
        Verb::Truncate => b"truncate",
        Verb::Unlink => b"unlink",
        Verb::Rmdir => b"rmdir",
        Verb::Rename => b"rename",
        Verb::Link => b"link",
        Verb::Read => b"read",
        Verb::List => b"list",
        Verb::Stat => b"stat",
        Verb::Fsync => b"fsync",
        Verb::Fatomic => b"fatomic",
        Verb::Ask => b"ask",
    }
}

/// The verb of the word that a line begins with.
pub fn read_verb(word: &[u8]) -> Option<Verb>
    ensures { result ≡ verb_in word.now }
{
    VERBS.iter().copied().find(|verb| word == verb_word(*verb))
}
