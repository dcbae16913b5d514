//! Block texts on the journal's machine: what the lines mean, the trace of their events, and its text.
#![tactic(auto)]

mod laws;
mod lines;
mod steps;
mod trace;

pub use laws::{traces_are_allowed, traces_are_read};
pub use lines::{NAMED, fills_of, mark_line};
pub use trace::write_trace;
