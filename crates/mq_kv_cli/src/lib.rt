//! The words of the program on key-value stores: which command they ask, with its names and numbers.
#![tactic(auto)]

mod command;
mod help_text;
mod parse;
mod read;
mod syntax;
mod verb;

pub use command::{ApplyOptions, Command};
pub use help_text::{help_on, version_line};
pub use read::read_command;
pub use verb::Verb;
