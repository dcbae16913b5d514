// What is left of an image on which something was played.
use mq_blocks::TxNo;
use mq_image::DriveImage;

/// What is left of an image on which something was played, and what is reported of it.
#[derive(Drop)]
pub struct PlayedImage<T> {
    /// What a cut of the power left of the drive, once all was played.
    pub image: DriveImage,
    /// The base that the recovery at the start found.
    pub base: TxNo,
    /// What was played.
    pub played: T,
    /// Whether the command that had to fail was executed, and so has failed.
    pub failed: bool,
    /// The number of events that happened if the power has a limit, else 0.
    pub events: u64,
}
