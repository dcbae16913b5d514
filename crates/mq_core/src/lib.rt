//! The journal as a pure machine: the events on the queues of a drive, where each is allowed, and what a
//! power cut may leave after each of them.
#![tactic(auto)]

mod event;
mod laws;
mod machine;
mod port;

pub use event::{CoreRefusal, Event};
pub use laws::{every_run_is_lawful, prefixes_are_whole, reach_is_exact, starts};
pub use machine::{
    Core, Parts, complete, drop_changed, fail_command, flush, flush_head, fresh_queues, home_done,
    next_count, ring, stage, store_base, store_head, write_home,
};
pub use mq_ledger::{Blocks, Content, PlainEntry, Tx, Writes, copy_blocks, copy_content};
pub use port::{PlainCommand, PlainHomeWrite, PlainPort};
