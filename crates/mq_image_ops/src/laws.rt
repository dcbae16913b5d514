// What holds of the drive that starts from a recovered image.
ghost use Rattle.mq_image_ops.specs.Laws.{RecoveredDrivesAreStill, RecoveredDrivesHaveTheBase};
ghost use Rattle.mq_image_ops.specs.Laws.{RecoveredDrivesHaveTheDoorbells, RecoveredDrivesMayStart};
ghost use Rattle.mq_image_ops.specs.Laws.{RecoveredDrivesHaveNoPrefix, RecoveredDrivesHoldTheBlocks};
ghost use Rattle.mq_image_ops.specs.Laws.{RecoveredDrivesHoldTheVolume};

/// A journal may start on the ports of the drive that starts from the image that a whole recovery left,
/// whichever of its commands has to fail: each port has one image, the base is the one that the recovery
/// found, and each doorbell is where it was before the recovery.
pub fn a_recovered_image_starts()
    ensures still { RecoveredDrivesAreStill }
    ensures start { RecoveredDrivesMayStart }
    ensures base { RecoveredDrivesHaveTheBase }
    ensures doorbells { RecoveredDrivesHaveTheDoorbells }
{}

/// What stands on these ports is what stood on the image before the recovery, at home alone: its blocks and
/// its volume.
pub fn a_recovered_image_holds_what_stood()
    ensures blocks { RecoveredDrivesHoldTheBlocks }
    ensures prefix { RecoveredDrivesHaveNoPrefix }
    ensures volume { RecoveredDrivesHoldTheVolume }
{}
