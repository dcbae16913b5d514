//! Where nobody holds anything, what is known of a journal and what lies in its ports are together one
//! lawful state of the machine, and recovery finds a prefix of the history on whatever a power cut leaves.
#![tactic(auto)]

mod laws;

pub use laws::{
    a_lawful_state_has_parts, marks_are_the_least_undone, parts_allow_home_writes_and_bases,
    parts_are_lawful, recovery_finds_a_prefix,
};
