// What keeps a group from being drawn, or what it is drawn with; and why it was not done.
use mq_blocks::{OutOfMemory, TxNo};
use mq_queue_side::{Cause, Prepared};

/// What keeps a group from being drawn.
#[derive(Drop)]
pub(crate) enum Obstacle {
    Memory,
    /// The journal area has no room for it.
    Area,
    /// The port of its queue refused.
    Drive(Cause),
}

impl From<OutOfMemory> for Obstacle {
    ghost use Rattle.std.specs.Prelude.{◌≡◌};
    ghost use Rattle.mq_sessions.specs.declared.committing.Obstacle.TheVariants as obstacle;

    ghost from_gives = { λ _ e. e ≡ obstacle.Memory };

    fn from(_: OutOfMemory) -> Self {
        Obstacle::Memory
    }
}

/// A group that may be drawn: its commit with all the memory that it takes, and its entry.
#[derive(Drop)]
pub(crate) struct Ready<E> {
    pub prepared: Prepared,
    pub entry: E,
}

/// Why a group was not done.
#[derive(Clone, Copy)]
pub(crate) enum Miss {
    /// Its plan does not fit the journal area, and nothing was changed.
    AreaFull,
    /// There was no memory for it.
    Memory,
    /// It writes more blocks than one transaction may.
    Large { count: u32, limit: u32 },
    /// The port of its queue refused before it drew a number.
    Refused(Cause),
    /// The send of its number was cut.
    Cut(TxNo),
}
