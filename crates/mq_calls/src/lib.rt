//! Files on the journal: groups of requests as its entries, and the calls of sessions on a desk that many threads
//! share, each of which takes pages, runs a group on them, and gives them back.
#![tactic(auto)]

mod answers;
mod asking;
mod calls;
mod checkpointing;
mod closing;
mod entry;
mod entry_laws;
mod laws;
mod lists;
mod machine;
mod mounting;
mod opening;
mod session;
mod settling;
mod telling;

pub use answers::Answer;
pub use entry::FileEntry;
pub use entry_laws::{
    a_done_group_asks, a_done_group_does, a_done_group_may_be_drawn, a_done_group_may_be_prepared,
    a_group_meets_the_rule, an_entry_tells_its_commit,
};
pub use laws::{a_done_group_stands, a_reading_group_changes_nothing};
pub use lists::{Placed, Replies, Requests};
pub use machine::{FileGroups, FileMachine};
pub use mounting::find_volume;
pub use mq_ledger::Blocks;
pub use mq_queue_side::{CallCause, Refusal};
pub use mq_sessions::{Aide, Gate, Open, Point, Shaped, User};
pub use session::{FileSystem, Mqfs, Session};
pub use settling::Helper;
