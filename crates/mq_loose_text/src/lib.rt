//! Texts of the loose order: commits on the queues of a drive, and drains. What they come to where the power goes
//! off stands in `specs/Meaning.antt`.
#![tactic(auto)]

mod line;
mod places;
mod print;
mod read;
mod refusal;
mod whole;

pub use line::{LooseLine, LooseText};
pub use print::{print_loose, print_refused};
pub use refusal::LooseTextRefusal;
pub use whole::read_loose_text;
