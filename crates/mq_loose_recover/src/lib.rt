//! Recovery of a journal whose transactions are acknowledged by dependence through blocks: of an image, the
//! greatest set of whole transactions stands that has, with each, all on which it depends.
#![tactic(auto)]

mod choice;
mod descriptors;
mod laws;
mod read;
mod recover;
mod standing;

pub use descriptors::LooseDescriptors;
pub use laws::{a_loose_image_has_one_set, loose_images_are_whole, loose_recovery_may_be_cut};
pub use read::{LooseDescriptor, read_loose_descriptor};
pub use recover::loose_recover;
pub use standing::{LooseStanding, loose_stands};
