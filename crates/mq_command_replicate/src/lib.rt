//! The command `replicate`: the lines of a block text are sent as updates to a replica on an emulated drive, over a
//! link that loses and repeats them, and what the replica holds is printed.
#![tactic(auto)]

mod command;
mod feeding;
mod lines;
mod link;
mod replica;
mod updates;

pub use command::run_replicate;
