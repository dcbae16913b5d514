//! Traces: texts of events on the journal's machine, and what the machine says of them.
#![tactic(auto)]

mod event;
mod finding;
mod laws;
mod lists;
mod refusal;
mod trace;
mod verb;
mod words;

pub use finding::{Finding, audit};
pub use laws::lines_spell_events;
pub use refusal::TraceRefusal;
