//! Ports of an emulated NVMe drive with a persistent memory region.
#![tactic(auto)]

mod blocks;
mod cut;
mod device;
mod emu;
mod extent;
mod failing;
mod fuse;
mod image;
mod port;
mod power;
mod random;
mod role;
mod store;
mod tickets;

pub use emu::EmuPort;
pub use fuse::{Fuse, FuseSeat};
pub use image::PortImage;
pub use port::{HomeStep, Off, Port, Ports, Step};
pub use role::Role;
