//! The program on key-value stores as a library: the commands `new` and `apply`, over files and an output.
#![tactic(auto)]

mod applying;
mod called;
mod help;
mod making;
mod program;
mod refusals;

pub use called::call_kv;
pub use program::kv;
