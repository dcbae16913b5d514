//! The tree of the file system: requests on it and their replies, and the tree that stands on the
//! home blocks of a drive.
#![tactic(auto)]

mod bitmap_check;
mod claims;
mod contents;
mod corrupt;
mod counts;
mod directory;
mod dirs;
mod duplicate_names;
mod file_tails;
mod findings;
mod keeps;
mod laws;
mod links;
mod listing;
mod mounts;
mod names;
mod path;
mod phases;
mod pointers;
mod reached;
mod request;
mod slots;
mod stored;
mod table;
mod tree;
mod walk;

pub use corrupt::{CorruptCause, MountRefusal, PhaseRefusal};
pub use counts::TreeCounts;
pub use keeps::{
    a_group_keeps_a_volume_sound, files_are_linked, files_are_rewritten, new_things_are_added,
    refusals_are_those_of_the_tree, refusals_change_nothing, replies_are_those_of_the_tree,
    things_are_removed, things_are_renamed,
};
pub use laws::{a_listing_has_each_path, alike_trees, clean_blocks, empty_tree, one_tree};
pub use mounts::{are_pages, mount, mount_by_phases};
pub use path::{Bytes, Name, Names, Path};
pub use request::{Fault, Reply, Request, changes};
pub use tree::Tree;
