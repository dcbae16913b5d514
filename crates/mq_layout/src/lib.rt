//! The layout of the file system: superblock, inodes, slots of directories, bitmaps and pointers.
#![tactic(auto)]

mod bits;
mod format;
mod inode;
mod name;
mod places;
mod refusal;
mod slot;
mod superblock;

pub use bits::{bit, first_clear, pointer, set_bit, set_pointer};
pub use format::format_block;
pub use inode::{Inode, read_inode, write_inode};
pub use name::is_good_name;
pub use places::{
    FILE_LIMIT, INODES_PER_BLOCK, NAMES_LIMIT, POINTERS_PER_BLOCK, SLOTS_PER_BLOCK, SUPERBLOCK,
    inode_bitmap, inode_block, inode_place, inodes, table_first, zone_bitmap,
};
pub use refusal::{LayoutCause, LayoutRefusal};
pub use slot::{Slot, clear_slot, read_slot, write_slot};
pub use superblock::{read_super, write_super};
