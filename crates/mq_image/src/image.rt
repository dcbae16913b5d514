// What a power cut leaves of a drive.
use mq_blocks::Geometry;
use mq_drive::PortImage;
use std::marker::Model;

/// The content of a drive after a power cut: one image for each queue's port, in order, and then one
/// for the root's.
#[derive(Drop)]
pub struct DriveImage {
    pub geometry: Geometry,
    pub ports: Vec<PortImage>,
}

impl Model for DriveImage {
    ghost use Rattle.mq_image.specs.File as file;

    ghost Value = { file.DriveImage };

    ghost view = { λ d. record { geometry = d.geometry; ports = d.ports.items } };
}
