//! Scripts of file requests: reading them, printing them, and the scripts of a generated workload.
#![tactic(auto)]

mod data;
mod generate;
mod group;
mod laws;
mod line;
mod path;
mod print;
mod read;
mod refusal;
mod verb;
mod words;

pub use generate::workload;
pub use group::{End, Group, Script};
pub use laws::printed_scripts_are_read;
pub use path::read_path;
pub use print::print_script;
pub use read::read_script;
pub use refusal::{LineRefusal, ScriptCause, ScriptRefusal};
