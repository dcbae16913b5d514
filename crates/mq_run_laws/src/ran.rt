// What a run on an image leaves.
use mq_blocks::TxNo;
use mq_image::DriveImage;
use mq_report::{Last, Line, Told};

/// What a run leaves of an image, and what it reports.
#[derive(Drop)]
pub struct ImageRun {
    /// What a cut of the power left of the drive, once all sessions had ended.
    pub image: DriveImage,
    /// The base that the recovery at the start found.
    pub base: TxNo,
    /// The commits and the reads, in the order of a report.
    pub entries: Vec<Line>,
    /// The answer to each group, by session and group.
    pub answers: Vec<Told>,
    pub last: Last,
    /// Whether the command that had to fail was executed, and so has failed.
    pub failed: bool,
}
