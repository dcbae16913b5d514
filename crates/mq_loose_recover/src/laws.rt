// What holds of readable images of the loose order, and of recoveries one after another.
ghost use Rattle.std.specs.Prelude.{◌≡◌, ℕ, List, map};
ghost use Rattle.mq_blocks.specs.Descriptor.{Descriptor};
ghost use Rattle.mq_blocks.specs.Drive.{image_of};
ghost use Rattle.mq_blocks.specs.declared.geometry.Geometry.{Geometry};
ghost use Rattle.mq_loose_recover.specs.Images.{AreLooselyWhole, IsLooselyRead, IsReadableLooseImage, RefusesLooseImage, loose_view};
ghost use Rattle.mq_loose_recover.specs.Standing.{IsLooselyCutShort};
ghost use Rattle.mq_recover.specs.Drives.{AreImages, DriveState};
ghost use Rattle.mq_recover.specs.Recovering.{IsRecovered};
ghost use Rattle.mq_recover.specs.Steps.{IsAgain};
ghost use Rattle.mq_recover.specs.declared.refusal.ImageFault.{ImageFault};
ghost use Rattle.mq_recover.specs.declared.refusal.RecoverRefusal.{RecoverRefusal};

/// An image of the loose order is readable exactly where, for what its blocks say on what each number depends,
/// its transactions are whole, and then there is no cause to refuse it.
pub fn loose_images_are_whole()
    ensures whole { (g : Geometry) (d : DriveState) (image : IsReadableLooseImage g d)
        → (deps : ℕ → List ℕ) × AreLooselyWhole deps g (loose_view deps g d) image.chains }
    ensures readable { (deps : ℕ → List ℕ) (g : Geometry) (d : DriveState) (chains : ℕ → List Descriptor)
        → AreLooselyWhole deps g (loose_view deps g d) chains
        → IsReadableLooseImage g d }
    ensures unrefused { (g : Geometry) (d : DriveState) (e : ImageFault)
        → IsReadableLooseImage g d
        → RefusesLooseImage g d e
        → ⊥ }
{}

/// A readable image has one set and one greatest number, whatever is said of numbers that it does not show.
pub fn a_loose_image_has_one_set()
    ensures { (g : Geometry) (d : DriveState) (deps others : ℕ → List ℕ) (ds es : List Descriptor) (top other : ℕ)
        → IsLooselyRead deps g (loose_view deps g d) ds top
        → IsLooselyRead others g (loose_view others g d) es other
        → (ds ≡ es) × (top ≡ other) }
{}

/// A recovery that the drive cut short may be begun again on whatever a power cut leaves of it: what the later
/// one recovers is what the first one was to recover, with the same base and the heads at the same doorbells. Its
/// set is the same over the old base, and none over the new one. The later one may have been begun again in its
/// turn.
pub fn loose_recovery_may_be_cut()
    ensures { (g : Geometry) (refusal : RecoverRefusal) (old new start later : DriveState)
        (deps : ℕ → List ℕ) (ds : List Descriptor) (top : ℕ) (cut : IsLooselyCutShort g refusal old new)
        → AreImages g new (map image_of start.queues) (image_of start.root)
        → IsLooselyRead deps g (loose_view deps g start) ds top
        → IsRecovered g start ds top later
        → IsAgain g old cut.ds cut.top start ds top later }
{}
