//! The image of a drive as a file.
#![tactic(auto)]

mod fault;
mod header;
mod image;
mod laws;
mod old;
mod place;
mod read;
mod ring;
mod version;
mod write;

pub use fault::FileFault;
pub use image::DriveImage;
pub use laws::{files_are_read_once, old_files_are_read, written_images_are_read};
pub use read::read_image;
pub use write::{write_image, write_image_over};
