// Why words are not read.
use std::alloc::AllocError;

/// Why words are not read.
#[derive(Clone, Copy, PartialEq, Eq)]
pub enum WordsRefusal {
    /// The words are no command.
    Unknown,
    /// Memory ran out. The words may be a command.
    OutOfMemory,
}

impl From<AllocError> for WordsRefusal {
    ghost use Rattle.std.specs.Prelude.{◌≡◌};
    ghost use Rattle.mq_cli.specs.declared.refusal.WordsRefusal.TheVariants as refusal;

    ghost from_gives = { λ _ e. e ≡ refusal.OutOfMemory };

    fn from(_: AllocError) -> Self {
        WordsRefusal::OutOfMemory
    }
}
