// The command that the words of the command line spell.
use crate::verb::Verb;

/// The numbers of the options of `apply`.
#[derive(Clone, Copy)]
pub struct ApplyOptions {
    /// The number of events after which the power goes off.
    pub cut: Option<u64>,
    /// The seed of the choice of what is uncertain at the cut, and of the order in which commands end.
    pub pick: Option<u64>,
}

/// The command that words spell.
#[derive(Clone, Copy)]
pub enum Command<'a> {
    New {
        image: &'a str,
    },
    Apply {
        image: &'a str,
        /// The name of the file of groups.
        file: &'a str,
        options: ApplyOptions,
    },
    /// Help on a command, or on the program.
    Help(Option<Verb>),
    Version,
}
