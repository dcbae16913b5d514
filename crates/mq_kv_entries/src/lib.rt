//! Groups of operations on a key-value store as entries of a journal, and how such groups are carried out on
//! the pages that a session holds.
#![tactic(auto)]

mod difference;
mod entry;
mod executor;
mod group;
mod group_laws;
mod lists;
mod missing;
mod outcome;
mod working;

pub use entry::KvEntry;
pub use executor::{KvGroups, KvMade};
pub use group::run;
pub use group_laws::a_group_looks_at_its_buckets;
pub use lists::{KvOps, KvReplies};
pub use mq_ledger::Blocks as KvBlocks;
pub use outcome::{KvDone, KvOutcome};
