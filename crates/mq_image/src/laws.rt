// What holds of the files of images.
ghost use Rattle.std.specs.Prelude.{◌≡◌, ◌≢◌, ◌≤◌, ◌<◌, ◌+◌, ◌%◌, ℕ, List, [], None, Option, Some, slice_index_or};
ghost use Rattle.std.specs.List.{All};
ghost use Rattle.mq_blocks.specs.Drive.{PortImage};
ghost use Rattle.mq_blocks.specs.Limits.{depth};
ghost use Rattle.mq_blocks.specs.declared.geometry.Geometry.{Geometry};
ghost use Rattle.mq_nvme.specs.Entry.{blank};
ghost use Rattle.mq_image.specs.Drives.{AreOldPorts, HasWidths, IsDrive, IsRead, emptied, old_image};
ghost use Rattle.mq_image.specs.Faults.{HasFault};
ghost use Rattle.mq_image.specs.File.{DriveImage, file_bytes, image_bytes};
ghost use Rattle.mq_image.specs.Old.{AreOldWords, moved};
ghost use Rattle.mq_image.specs.declared.fault.FileFault.{FileFault};

/// The file of an image has no fault, and is read as that image, with each block of zeros absent. Every
/// file has a first fault or none.
pub fn written_images_are_read()
    ensures fault { (x : DriveImage)
        → IsDrive x
        → All (λ p. HasWidths p) x.ports
        → HasFault (image_bytes x) None }
    ensures same { (x : DriveImage) (y : DriveImage)
        → IsDrive x
        → All (λ p. HasWidths p) x.ports
        → IsRead y (image_bytes x)
        → y ≡ emptied x }
    ensures first { (file : List ℕ) → (fault : Option FileFault) × HasFault file fault }
{}

/// A file is read as one image at most, and then it has no fault.
pub fn files_are_read_once()
    ensures once { (x : DriveImage) (y : DriveImage) (file : List ℕ)
        → IsRead x file
        → IsRead y file
        → x ≡ y }
    ensures good { (x : DriveImage) (file : List ℕ)
        → IsRead x file
        → HasFault file None }
    ensures faulty { (x : DriveImage) (file : List ℕ) (e : FileFault)
        → IsRead x file
        → HasFault file (Some e)
        → ⊥ }
{}

/// A file of version 1 has no fault, and is read as the image of its ports with their rings moved: the
/// entry of each count from the one before the head on is in the slot of its count in a ring of today's
/// depth, and the other slots are blank.
pub fn old_files_are_read()
    ensures fault { (g : Geometry) (old : List PortImage) (root : PortImage)
        → AreOldPorts g old root
        → HasFault (file_bytes 1 g old root) None }
    ensures same { (g : Geometry) (old : List PortImage) (root : PortImage) (y : DriveImage)
        → AreOldPorts g old root
        → IsRead y (file_bytes 1 g old root)
        → y ≡ emptied (old_image g old root) }
    ensures entries { (p : PortImage) (c : ℕ)
        → AreOldWords p
        → p.head ≤ c + 1
        → c < p.doorbell
        → slice_index_or (moved p).slots (c % depth) [] ≡ slice_index_or p.slots (c % 1024) [] }
    ensures others { (p : PortImage) (k : ℕ)
        → k < depth
        → ((c : ℕ) → p.head ≤ c + 1 → c < p.doorbell → c % depth ≢ k)
        → slice_index_or (moved p).slots k [] ≡ blank }
{}
