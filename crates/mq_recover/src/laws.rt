// What holds of readable images, and of recoveries one after another.
ghost use Rattle.std.specs.Prelude.{ℕ, List, map};
ghost use Rattle.mq_blocks.specs.Descriptor.{Descriptor};
ghost use Rattle.mq_blocks.specs.Drive.{image_of};
ghost use Rattle.mq_blocks.specs.Journal.{AreWhole};
ghost use Rattle.mq_blocks.specs.declared.geometry.Geometry.{Geometry};
ghost use Rattle.mq_recover.specs.Drives.{DriveState, AreImages, view_over};
ghost use Rattle.mq_recover.specs.Recovery.{IsReadPrefix};
ghost use Rattle.mq_recover.specs.Images.{IsReadableImage, RefusesImage};
ghost use Rattle.mq_recover.specs.Recovering.{IsRecovered};
ghost use Rattle.mq_recover.specs.Steps.{IsCutShort, IsAgain};
ghost use Rattle.mq_recover.specs.declared.refusal.ImageFault.{ImageFault};
ghost use Rattle.mq_recover.specs.declared.refusal.RecoverRefusal.{RecoverRefusal};

/// An image is readable exactly where its transactions are whole, and then there is no cause to refuse
/// it.
pub fn readable_images_are_whole()
    ensures whole { (g : Geometry) (d : DriveState) (image : IsReadableImage g d)
        → AreWhole g (view_over g d) image.chains }
    ensures readable { (g : Geometry) (d : DriveState) (chains : ℕ → List Descriptor)
        → AreWhole g (view_over g d) chains
        → IsReadableImage g d }
    ensures unrefused { (g : Geometry) (d : DriveState) (e : ImageFault)
        → IsReadableImage g d
        → RefusesImage g d e
        → ⊥ }
{}

/// A recovery that the drive cut short may be begun again on whatever a power cut leaves of it: what
/// the later one recovers is what the first one was to recover, with the same base and the heads at the
/// same doorbells. Its prefix is the same over the old base, and none over the new one. The later one
/// may have been begun again in its turn.
pub fn recovery_may_be_cut()
    ensures { (g : Geometry) (refusal : RecoverRefusal) (old new start later : DriveState) (ds : List Descriptor)
        (top : ℕ) (cut : IsCutShort g refusal old new)
        → AreImages g new (map image_of start.queues) (image_of start.root)
        → IsReadPrefix g (view_over g start) ds top
        → IsRecovered g start ds top later
        → IsAgain g old cut.ds cut.top start ds top later }
{}
