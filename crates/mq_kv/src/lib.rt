//! A transactional key-value store on a journal that threads share: buckets in the metadata region of a drive,
//! and groups of operations, each of which is one transaction.
#![tactic(auto)]

mod calls;
mod cells;
mod checking;
mod closing;
mod finding;
mod laws;
mod opening;
mod refusal;
mod session;

pub use calls::{KvAnswer, KvCause, KvRefusal};
pub use finding::find_store;
pub use laws::{recovery_finds_a_store, replies_are_of_the_store};
pub use mq_sessions::Shaped;
pub use refusal::KvOpenRefusal;
pub use session::{Kv, KvMachine, KvSession, Store};
