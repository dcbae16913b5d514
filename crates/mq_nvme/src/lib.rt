//! Submission and completion queue entries of NVM Express 1.4, for writes that are requests of a
//! transaction (Liao et al., SOSP 2021). Where an entry says so is this project's own.
#![tactic(auto)]

mod completion;
mod dwords;
mod entry;
mod field;
pub mod fields;
mod rows;
mod write;

pub use completion::{Completion, Ended, WRITE_FAULT, completion_of, status_of};
pub use dwords::Dwords;
pub use entry::Entry;
pub use field::Field;
pub use rows::{CompletionField, SubmissionField};
pub use write::{EntryRefusal, WriteReq, read_write, write_of};
