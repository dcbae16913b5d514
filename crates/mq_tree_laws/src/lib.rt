//! What holds of trees with hard links: a tree is two finite maps, and an inode has as many paths as links.
#![tactic(auto)]

mod laws;

pub use laws::{a_tree_is_two_maps, links_are_paths};
