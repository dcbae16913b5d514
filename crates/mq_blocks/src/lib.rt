//! Blocks, their numbers, and where they lie on the drive.
#![tactic(auto)]

mod block;
pub mod bytes;
mod command;
mod geometry;
mod laws;
mod limits;
mod numbers;

pub use block::{Block, OutOfMemory};
pub use command::{Command, HomeWrite};
pub use geometry::{Geometry, GeometryRefusal};
pub use laws::addresses_are_apart;
pub use limits::{
    DESCRIPTOR_VERSION, ENTRIES_IN_ONE, LIST_LIMIT, RING_DEPTH, USABLE_DEPTH, further_blocks,
};
pub use numbers::{BlockNo, Lba, QueueNo, TxNo};
