// The first words of lines of events.
ghost use Rattle.std.specs.Prelude.{◌≡◌};
ghost use Rattle.mq_audit.specs.Verbs.{verb_in, verb_text};

/// What an event is.
#[derive(Clone, Copy)]
pub enum Verb {
    Draw,
    Stage,
    Flush,
    Ring,
    Complete,
    Failed,
    StoreHead,
    FlushHead,
    Clear,
    Ack,
    Home,
    HomeDone,
    StoreBase,
    FlushBase,
}

/// The verbs of events.
const VERBS: [Verb; 14] = [
    Verb::Draw,
    Verb::Stage,
    Verb::Flush,
    Verb::Ring,
    Verb::Complete,
    Verb::Failed,
    Verb::StoreHead,
    Verb::FlushHead,
    Verb::Clear,
    Verb::Ack,
    Verb::Home,
    Verb::HomeDone,
    Verb::StoreBase,
    Verb::FlushBase,
];

/// The first word of an event of a verb.
fn verb_word(verb: Verb) -> &'static [u8]
    ensures { result.now ≡ verb_text verb }
{
    match verb {
        Verb::Draw => b"draw",
        Verb::Stage => b"stage",
        Verb::Flush => b"flush",
        Verb::Ring => b"ring",
        Verb::Complete => b"complete",
        Verb::Failed => b"failed",
        Verb::StoreHead => b"storehead",
        Verb::FlushHead => b"flushhead",
        Verb::Clear => b"clear",
        Verb::Ack => b"ack",
        Verb::Home => b"home",
        Verb::HomeDone => b"homedone",
        Verb::StoreBase => b"storebase",
        Verb::FlushBase => b"flushbase",
    }
}

/// The verb of the first word of an event.
pub fn read_verb(word: &[u8]) -> Option<Verb>
    ensures { result ≡ verb_in word.now }
{
    VERBS.iter().copied().find(|verb| word == verb_word(*verb))
}
