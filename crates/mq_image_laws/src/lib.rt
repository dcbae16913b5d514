//! What the file of an image is read as, by recovery and by the rules of its own version, and what a recovery
//! leaves of an image as it was.
#![tactic(auto)]

mod alike;
mod old_files;
mod rest;

pub use alike::alike_drives_are_read_alike;
pub use old_files::old_files_are_read_as_before;
pub use rest::a_recovery_leaves_the_rest;
