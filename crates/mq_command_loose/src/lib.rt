//! The command `loose`: a text of the loose order is run on an emulated drive, whose power is cut, and what was
//! acknowledged and what stands is printed.
#![tactic(auto)]

mod command;
mod running;

pub use command::run_loose;
