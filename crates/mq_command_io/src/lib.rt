//! How a command ends: what it says, with which status, and how it loads and saves.
#![tactic(auto)]

mod files;
mod says;

pub use files::{load_or_say, save_or_say};
pub use says::{
    COMMAND, DONE, FAULT, IMAGE, NO_MEMORY, REFUSED, USAGE, say, say_memory, say_named,
};
