//! Scripts run on the sessions of a file system, each on a thread of its own, over the ports of a drive
//! that was recovered.
#![tactic(auto)]

mod end;
mod ending;
mod halves;
mod laws;
mod lines;
mod opening;
mod playing;
mod runner;
mod running;
mod serving;
mod together;

pub use end::RunEnd;
pub use laws::{
    a_finished_run_is_clean, a_run_keeps_its_ports, a_run_rings_once_for_each_commit,
    a_stopped_run_is_backed,
};
pub use running::run_scripts;
