//! On which transactions a transaction of the loose order depends, and the descriptor that lists them.
#![tactic(auto)]

mod laws;
mod numbers;
mod write;

pub use laws::{
    dependences_are_exact, loose_form_is_sound, the_greatest_closed_set,
    what_stands_is_found_upward,
};
pub use numbers::Numbers;
pub use write::{LOOSE_MAGIC, write_loose_descriptor};
