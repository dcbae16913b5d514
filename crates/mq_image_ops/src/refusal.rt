// Why no volume stands on an image.
use mq_blocks::{BlockNo, OutOfMemory};
use mq_recover::ImageFault;
use mq_tree::{CorruptCause, MountRefusal};

/// Why no volume stands on an image.
#[derive(Clone, Copy, PartialEq, Eq)]
pub enum StandingRefusal {
    /// The image is not readable.
    Image(ImageFault),
    /// The blocks that stand have no tree, and this is wrong at this block.
    Corrupt { cause: CorruptCause, block: BlockNo },
    OutOfMemory,
}

impl From<OutOfMemory> for StandingRefusal {
    ghost use Rattle.std.specs.Prelude.{◌≡◌};
    ghost use Rattle.mq_image_ops.specs.declared.refusal.StandingRefusal.TheVariants as refusal;

    ghost from_gives = { λ _ e. e ≡ refusal.OutOfMemory };

    fn from(_: OutOfMemory) -> Self {
        StandingRefusal::OutOfMemory
    }
}

impl From<ImageFault> for StandingRefusal {
    ghost use Rattle.std.specs.Prelude.{◌≡◌};
    ghost use Rattle.mq_image_ops.specs.Refusals.{refusal_for};

    ghost from_gives = { λ fault e. e ≡ refusal_for fault };

    fn from(fault: ImageFault) -> Self {
        match fault {
            ImageFault::OutOfMemory => StandingRefusal::OutOfMemory,
            fault => StandingRefusal::Image(fault),
        }
    }
}

impl From<MountRefusal> for StandingRefusal {
    ghost use Rattle.std.specs.Prelude.{◌≡◌};
    ghost use Rattle.mq_image_ops.specs.Refusals.{refusal_of};

    ghost from_gives = { λ refusal e. e ≡ refusal_of refusal };

    fn from(refusal: MountRefusal) -> Self {
        match refusal {
            MountRefusal::Corrupt { cause, block } => StandingRefusal::Corrupt { cause, block },
            MountRefusal::OutOfMemory => StandingRefusal::OutOfMemory,
        }
    }
}
