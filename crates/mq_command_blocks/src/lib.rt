//! The command `blocks`: a block text is committed through one queue of an emulated drive, cut from power,
//! recovered and printed.
#![tactic(auto)]

mod blocks;
mod command;
mod commit;
mod items;
mod line;
mod live;
mod restart;

pub use command::{run_blocks, save_file, say_refusal};
pub use commit::{TextRefusal, commit_text};
pub use items::{filled, filled_writes};
pub use live::{live_blocks, live_marks};
pub use restart::only_memory;
