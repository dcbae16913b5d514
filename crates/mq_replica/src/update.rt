// Updates, and why an offer of one is refused.
ghost use Rattle.std.specs.Prelude.{◌≡◌};

use mq_blocks::{Block, BlockNo, OutOfMemory, TxNo};
use std::marker::Model;

/// Home blocks with the contents that they get.
#[derive(Drop)]
pub struct UpdateWrites(pub Vec<(BlockNo, Block)>);

impl Model for UpdateWrites {
    ghost use Rattle.mq_blocks.specs.Machine.{Writes};

    ghost Value = { Writes };

    ghost view = { λ w. w.0.items };
}

impl UpdateWrites {
    pub fn as_slice(&self) -> &[(BlockNo, Block)]
        ensures { result.now ≡ self.now }
    {
        &self.0
    }
}

/// A transaction of a history, as it is sent to a replica.
#[derive(Drop)]
pub struct Update {
    /// The first after the feeder's base is the base plus 1.
    pub number: TxNo,
    /// In rising order of blocks.
    pub writes: UpdateWrites,
}

/// Why the next update of the history was not applied, in the order in which the causes are looked for.
#[derive(Clone, Copy, PartialEq, Eq)]
pub enum OfferRefusal {
    /// An earlier offer met a cause of the drive.
    Stopped,
    /// The number that was reached is too great.
    Limit,
    /// The first block that isn't below the last home block, which the replica keeps for itself.
    Range { block: BlockNo },
    /// There are more writes than the replica applies in one transaction.
    TooLarge { count: u32, limit: u32 },
    OutOfMemory,
    /// The power is off.
    Off,
    /// A command, or a home write of the recovery that reclaims the journal area, failed.
    Failed { status: u16 },
}

impl From<OutOfMemory> for OfferRefusal {
    ghost use Rattle.std.specs.Prelude.{◌≡◌};
    ghost use Rattle.mq_replica.specs.declared.update.OfferRefusal.TheVariants as refusal;

    ghost from_gives = { λ _ e. e ≡ refusal.OutOfMemory };

    fn from(_: OutOfMemory) -> Self {
        OfferRefusal::OutOfMemory
    }
}
