//! A machine whose entries are votes, for tests of the desk at which threads draw numbers.
#![tactic(auto)]

mod votes;

pub use votes::{Counting, Opened, Port, QueueSide, Round, Vote, Word, cast, opened};
