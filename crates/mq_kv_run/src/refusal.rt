// Why no groups are run on an image.
use mq_blocks::{BlockNo, OutOfMemory};
use mq_image_run::Unplayed;
use mq_recover::ImageFault;

/// Why no groups are run on an image.
#[derive(Clone, Copy, PartialEq, Eq)]
pub enum KvRunRefusal {
    /// The image is not readable, or its numbers are above the limit of a run.
    Image(ImageFault),
    /// This bucket is the first that is not in its form, with the offset of what is wrong first.
    Bucket { block: BlockNo, offset: u32 },
    OutOfMemory,
}

impl From<OutOfMemory> for KvRunRefusal {
    ghost use Rattle.std.specs.Prelude.{◌≡◌};
    ghost use Rattle.mq_kv_run.specs.declared.refusal.KvRunRefusal.TheVariants as refusal;

    ghost from_gives = { λ _ e. e ≡ refusal.OutOfMemory };

    fn from(_: OutOfMemory) -> Self {
        KvRunRefusal::OutOfMemory
    }
}

impl From<ImageFault> for KvRunRefusal {
    ghost use Rattle.std.specs.Prelude.{◌≡◌};
    ghost use Rattle.mq_kv_run.specs.Refusals.{refusal_for};

    ghost from_gives = { λ fault e. e ≡ refusal_for fault };

    fn from(fault: ImageFault) -> Self {
        match fault {
            ImageFault::OutOfMemory => KvRunRefusal::OutOfMemory,
            fault => KvRunRefusal::Image(fault),
        }
    }
}

impl From<Unplayed<KvRunRefusal>> for KvRunRefusal {
    ghost use Rattle.std.specs.Prelude.{◌≡◌};
    ghost use Rattle.mq_kv_run.specs.Refusals.{refusal_from};

    ghost from_gives = { λ unplayed e. e ≡ refusal_from unplayed };

    fn from(unplayed: Unplayed<KvRunRefusal>) -> Self {
        match unplayed {
            Unplayed::Image(fault) => KvRunRefusal::from(fault),
            Unplayed::Refused(refusal) => refusal,
        }
    }
}
