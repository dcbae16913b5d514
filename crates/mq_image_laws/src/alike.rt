// What holds of drives that recovery can't tell apart.
ghost use Rattle.mq_image_laws.specs.Alike.{AlikeDrivesAreReadAlike, AlikeDrivesAreRefusedAlike};
ghost use Rattle.mq_image_laws.specs.Alike.{AlikeDrivesAreWholeAlike, AlikeDrivesStandAlike};

/// Of a ring recovery reads the entries of the counts from the one before the head on, below the doorbell,
/// and no other slot. Drives that agree in these, in their words, bases and blocks, are readable alike:
/// the same transactions are whole, the same prefix and greatest number are read, and the same stands on
/// each home block; or they are refused for the same first cause.
pub fn alike_drives_are_read_alike()
    ensures whole { AlikeDrivesAreWholeAlike }
    ensures read { AlikeDrivesAreReadAlike }
    ensures stands { AlikeDrivesStandAlike }
    ensures refused { AlikeDrivesAreRefusedAlike }
{}
