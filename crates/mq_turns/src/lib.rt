//! A desk of turns: pages, sides and the root, each held by one chair at a time, and a counter from
//! which chairs draw numbers without waiting, with marks that show which numbers are done.
#![tactic(auto)]

mod calls;
mod close;
mod desk;
mod machine;
mod notes;
mod open;
mod plays;
mod progress;
mod rule;
mod steps;
mod turn;
mod words;

pub use close::Parts;
pub use desk::{Chair, Desk};
pub use machine::Machine;
pub use rule::{
    ChairView, Charge, Claim, Known, Knows, Law, MarkAnswer, Notice, Opening, Reading, Report,
    Start,
};
pub use turn::{Item, Turn};
