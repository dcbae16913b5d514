//! What is done on the image of a drive in memory: the fresh drive and the empty file system, the volume that stands, the
//! chains, recovery, and the drive that starts from it and ends with a cut of its power.
#![tactic(auto)]

mod cut;
mod dump;
mod format;
mod homes;
mod laws;
mod ports;
mod recovery;
mod refusal;
mod volume;
mod width;

pub use cut::{CutDrive, cut_ports};
pub use dump::dump_image;
pub use format::{blank_drive, format_drive};
pub use homes::take_homes;
pub use laws::{a_recovered_image_holds_what_stood, a_recovered_image_starts};
pub use ports::{Failing, drive_power, start_ports};
pub use recovery::{RecoveredImage, recover_image};
pub use refusal::StandingRefusal;
pub use volume::{list_volume, read_volume};
pub use width::an_image_fits_its_file;
