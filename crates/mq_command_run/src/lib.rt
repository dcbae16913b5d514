//! The commands `run` and `gen`: scripts that run on the image of a drive, each on a session and a thread of its own,
//! and scripts that a generator makes.
#![tactic(auto)]

mod generated;
mod generating;
mod lines;
mod playing;
mod refusals;
mod running;
mod shape;
mod workload;
mod workload_laws;

pub use generated::Generated;
pub use generating::generate;
pub use running::run;
pub use workload::{Workload, generate_and_save};
pub use workload_laws::a_workload_is_refused_only_for_memory;
