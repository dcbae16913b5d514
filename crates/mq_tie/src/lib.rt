//! The end of a desk over the ports of a journal: what lies there is one lawful state, and its history is
//! one list in number order.
#![tactic(auto)]

mod closing;
mod ended;
mod laws;
mod order;
mod reading;

pub use closing::{Unclosed, close, close_desk};
pub use ended::Ended;
pub use laws::{
    a_closed_desk_keeps_its_ports, a_desk_ends_in_a_lawful_state,
    an_ended_desk_rang_once_for_each_commit, what_was_reported_is_backed,
};
