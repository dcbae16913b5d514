//! Files that list the names that were to be loaded, for tests.
#![tactic(auto)]

mod listed;

pub use listed::ListedFiles;
