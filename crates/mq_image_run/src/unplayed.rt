// Why nothing was played on an image.
use mq_blocks::OutOfMemory;
use mq_recover::ImageFault;

/// Why nothing was played on an image, or what was played was lost.
#[derive(Drop)]
pub enum Unplayed<E> {
    /// The image is not readable, or its numbers are above the limit of a run, or memory ran out.
    Image(ImageFault),
    /// What was to be played refused the drive.
    Refused(E),
}

impl<E> From<OutOfMemory> for Unplayed<E> {
    ghost use Rattle.std.specs.Prelude.{◌≡◌};
    ghost use Rattle.mq_image_run.specs.declared.unplayed.Unplayed.TheVariants as unplayed;
    ghost use Rattle.mq_recover.specs.declared.refusal.ImageFault.TheVariants as fault;

    ghost from_gives = { λ _ e. e ≡ unplayed.Image fault.OutOfMemory };

    fn from(_: OutOfMemory) -> Self {
        Unplayed::Image(ImageFault::OutOfMemory)
    }
}

impl<E> From<ImageFault> for Unplayed<E> {
    ghost use Rattle.std.specs.Prelude.{◌≡◌};
    ghost use Rattle.mq_image_run.specs.declared.unplayed.Unplayed.TheVariants as unplayed;

    ghost from_gives = { λ fault e. e ≡ unplayed.Image fault };

    fn from(fault: ImageFault) -> Self {
        Unplayed::Image(fault)
    }
}
