// What holds of the images that files of version 1 are read as.
ghost use Rattle.mq_image_laws.specs.OldFiles.{OldFilesAreReadAsBefore, OldFilesAreRefusedAsBefore};
ghost use Rattle.mq_image_laws.specs.OldFiles.{OldFilesAreWholeAsBefore, OldFilesStandAsBefore};

/// What a file of version 1 is read as, with its rings moved, says what the file says by the rules of
/// version 1, in which the entry of a count is in the slot of its rest by 1,024: the same transactions are
/// whole, the same prefix is read over the same base, with the same greatest number, and the same home
/// blocks stand; or the image is not readable, for the same first cause.
pub fn old_files_are_read_as_before()
    ensures whole { OldFilesAreWholeAsBefore }
    ensures read { OldFilesAreReadAsBefore }
    ensures stands { OldFilesStandAsBefore }
    ensures refused { OldFilesAreRefusedAsBefore }
{}
