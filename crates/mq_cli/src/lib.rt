//! The words of the program: which command they ask, with its names, numbers and options.
#![tactic(auto)]

mod command;
mod first;
mod found;
mod help;
mod help_text;
mod numbers;
mod parse;
mod path;
mod read;
mod refusal;
mod syntax;
mod verb;

pub use command::{BlocksOptions, Command, FailingCommand, RunFlags};
pub use first::{First, read_first};
pub use found::{found_name, found_number, found_word};
pub use help_text::{help_on, version_line};
pub use parse::{parse_words, with_words};
pub use read::read_command;
pub use refusal::WordsRefusal;
pub use verb::Verb;
