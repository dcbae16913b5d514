//! The history of a journal, with what is asked of it kept beside: transactions and their form, the last
//! change of each home block, and where the transactions of each queue end.
#![tactic(auto)]

mod content;
mod entry;
mod form;
mod latest;
mod queue_rows;
mod records;
mod staging;
mod tx;

pub use content::{Blocks, Content, Writes, copy_blocks, copy_content};
pub use entry::PlainEntry;
pub use form::is_transaction;
pub use queue_rows::QueueEnd;
pub use records::{Ledger, descriptor_blocks, repeated};
pub use staging::Staged;
pub use tx::Tx;
