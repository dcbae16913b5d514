// What a run on an image leaves.
use mq_image::DriveImage;
use mq_kv_text::KvReport;

/// What a run leaves of an image, and what it reports.
#[derive(Drop)]
pub struct KvRun {
    /// What a cut of the power left of the drive, once all groups had ended.
    pub image: DriveImage,
    pub report: KvReport,
}
