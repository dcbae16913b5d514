//! Runs of texts of the loose order: their lines are run on an emulated drive until the end or until the power goes
//! off, and what the cut leaves is read.
#![tactic(auto)]

mod items;
mod lines;
mod marks;
mod run;
mod running;
mod standing;

pub use run::{LooseRun, run_loose_text};
pub use running::Running;
