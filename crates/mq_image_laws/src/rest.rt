// What a recovery leaves as it was.
ghost use Rattle.mq_image_laws.specs.Rest.{RecoveriesLeaveTheRest};

/// A recovery of an image, also one that is cut, writes the home blocks that have a copy left, the base and
/// the heads. What it leaves has each slot of a ring, each block of a journal area and each other home block
/// as it was.
pub fn a_recovery_leaves_the_rest()
    ensures { RecoveriesLeaveTheRest }
{}
