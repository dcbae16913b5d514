//! The program `mqfs`: the command that its words spell, over files and an output.
#![tactic(auto)]

mod called;
mod program;

pub use called::call_mqfs;
pub use program::mqfs;
