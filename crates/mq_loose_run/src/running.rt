// Queues on which the lines of a text are run.
use mq_blocks::OutOfMemory;
use mq_drive::EmuPort;
use mq_loose_queues::LooseQueues;

/// The queues of a drive, with what is kept of the lines that were run on them.
#[derive(Drop)]
pub struct Running<'f> {
    pub queues: LooseQueues<EmuPort<'f>>,
    /// Of each block that texts may name, whether it is in the map.
    pub marks: Vec<bool>,
    /// Of each queue, whether entries wait on it until it is drained.
    pub waits: Vec<bool>,
}

/// Why a line was not run to its end.
#[derive(Clone, Copy, PartialEq, Eq)]
pub enum Stop {
    /// The power went off.
    Off,
    OutOfMemory,
}

impl From<OutOfMemory> for Stop {
    ghost use Rattle.std.specs.Prelude.{◌≡◌};
    ghost use Rattle.mq_loose_run.specs.declared.running.Stop.TheVariants as stop;

    ghost from_gives = { λ _ e. e ≡ stop.OutOfMemory };

    fn from(_: OutOfMemory) -> Self {
        Stop::OutOfMemory
    }
}
