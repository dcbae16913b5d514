//! A run on the image of a drive, whatever is played on it: recovery, the drive with its power, the end, and the
//! image that is left.
#![tactic(auto)]

mod driving;
mod limits;
mod options;
mod ran;
mod running;
mod stopping;
mod unplayed;

pub use options::DriveOptions;
pub use ran::PlayedImage;
pub use running::play_on_image;
pub use unplayed::Unplayed;
