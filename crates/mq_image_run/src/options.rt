// What is asked for of a drive.
use mq_image_ops::Failing;

/// The power of a drive, its chance and its failure, beside the image that it starts from.
#[derive(Clone, Copy)]
pub struct DriveOptions {
    /// The power goes off after this number of events that follow the recovery. With none it stays on, and no events
    /// are counted.
    pub limit: Option<u64>,
    /// Chooses the order in which posted commands are executed, and what a cut leaves of what is uncertain.
    pub pick: u64,
    /// The command that has to fail, of those that follow the recovery.
    pub fail: Option<Failing>,
}
