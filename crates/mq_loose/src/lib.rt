//! The journal as a machine of the loose order: a number is acknowledged once it and all on which it depends
//! are done, whatever other numbers are.
#![tactic(auto)]

mod event;
mod laws;
mod machine;

pub use event::{LooseEvent, LooseTx};
pub use laws::every_loose_run_is_safe;
pub use machine::{LooseCore, LooseRow, are_flagged, row_with};
pub use mq_core::CoreRefusal;
pub use mq_loose_order::Numbers;
