//! A journal of the loose order on the queues of a drive: commits and drains on one thread, and which numbers are
//! settled.
#![tactic(auto)]

mod changes;
mod commit;
mod drawing;
mod laws;
mod parts;
mod prepare;
mod queues;
mod refusal;
mod settled;

pub use changes::Change;
pub use laws::{loose_queues_are_safe, recovered_ports_may_open, settled_stays};
pub use queues::LooseQueues;
pub use refusal::LooseRefusal;
