//! The journal on a desk: the machine whose values are cells of home blocks, sides of queues and the root, for
//! groups of any kind; and the calls on it: send, drain, settle, checkpoint.
#![tactic(auto)]

mod catching_up;
mod draining;
mod held;
mod homes;
mod laws;
mod machine;
mod numbers;
mod pages;
mod raising;
mod refusal;
mod reporting;
mod root;
mod root_reporting;
mod sending;
mod settling;
mod sweeping;

pub use draining::{drain, report_of};
pub use held::{drain_held, give_back_side, take_side};
pub use laws::{
    a_held_side_is_current, a_held_side_stays, a_kept_failure_is_shown, a_send_outlives_the_rest,
};
pub use machine::{Groups, JournalMachine};
pub use numbers::number;
pub use raising::checkpoint;
pub use refusal::CheckpointRefusal;
pub use reporting::report_side;
pub use sending::send;
pub use settling::settle;
pub use sweeping::drain_all;
