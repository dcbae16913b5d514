// Why a checkpoint ends without a base.
use mq_blocks::OutOfMemory;
use mq_queue_side::Cause;

/// Why a checkpoint did not raise the base.
#[derive(Clone, Copy, PartialEq, Eq)]
pub enum CheckpointRefusal {
    /// There was no memory for the copy of a block.
    OutOfMemory,
    /// The drive did not do what was asked.
    Drive(Cause),
}

impl From<OutOfMemory> for CheckpointRefusal {
    ghost use Rattle.std.specs.Prelude.{◌≡◌};
    ghost use Rattle.mq_journal.specs.declared.refusal.CheckpointRefusal.TheVariants as refused;

    ghost from_gives = { λ _ e. e ≡ refused.OutOfMemory };

    fn from(_: OutOfMemory) -> Self {
        CheckpointRefusal::OutOfMemory
    }
}

impl From<Cause> for CheckpointRefusal {
    ghost use Rattle.std.specs.Prelude.{◌≡◌};
    ghost use Rattle.mq_journal.specs.declared.refusal.CheckpointRefusal.TheVariants as refused;

    ghost from_gives = { λ cause e. e ≡ refused.Drive cause };

    fn from(cause: Cause) -> Self {
        CheckpointRefusal::Drive(cause)
    }
}
