// The first words of lines.
ghost use Rattle.std.specs.Prelude.{◌≡◌};
ghost use Rattle.mq_kv_text.specs.Verbs.{verb_in};

/// What a line is: an operation of a kind, or the end of a group.
#[derive(Clone, Copy)]
pub enum Verb {
    Put,
    Delete,
    Get,
    Sync,
}

/// The verb of a word.
pub fn read_verb(word: &[u8]) -> Option<Verb>
    ensures { result ≡ verb_in word.now }
{
    match word {
        b"put" => Some(Verb::Put),
        b"del" => Some(Verb::Delete),
        b"get" => Some(Verb::Get),
        b"sync" => Some(Verb::Sync),
        _ => None,
    }
}
