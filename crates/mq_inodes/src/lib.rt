//! The pages that a session holds as a file system: inodes, directories and files, free blocks, what
//! requests change in them, and which pages they miss.
#![tactic(auto)]

mod bare;
mod bitmaps;
mod blocks;
mod bytes;
mod difference;
mod directory;
mod edits;
mod grow;
mod inode;
mod lack;
mod link;
mod links;
mod opened;
mod release;
mod slots;
mod space;
mod unseen;
mod walk;
mod working;

pub use blocks::{DIRECT, count_for, needs};
pub use lack::Missing;
pub use opened::{Opened, name_need};
pub use walk::{DIRECTORY, Place, Target};
pub use working::Working;
