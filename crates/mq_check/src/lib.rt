//! A check of the file system on home blocks: whether they have a tree and how much is in it, or what is wrong with them
//! first.
#![tactic(auto)]

mod checks;
mod laws;
mod marks;
mod verdict;

pub use checks::check;
pub use laws::one_first_finding;
pub use verdict::{CheckCause, Verdict};
