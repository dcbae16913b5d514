// The users of a desk.
ghost use Rattle.std.specs.Prelude.{◌≡◌, ◌+◌, ◌<◌, ◌≤◌};

use mq_blocks::{BlockNo, QueueNo};
use mq_pages::Held;
use mq_revoke::Placement;
use mq_turns::{Chair, Machine};

/// The number of calls that a session may make. Each may draw a number, and the numbers of all sessions
/// stay below 2^63. After this number of calls a session reports out of memory.
pub const CALL_LIMIT: u64 = 1 << 57;

/// A user of the desk of a machine: a session, whose groups run one after another. It commits on a queue of
/// its own.
#[derive(Drop)]
pub struct User<M: Machine> {
    pub(crate) chair: Chair<M>,
    /// The queue, which has the session's number.
    pub(crate) queue: QueueNo,
    /// How many calls were made.
    pub(crate) calls: u64,
    /// Room for what a call takes, reserved once.
    pub(crate) wanted: Vec<BlockNo>,
    pub(crate) held: Held,
    pub(crate) plan: Placement,
}

/// A chair at the desk of a machine that belongs to no session.
#[derive(Drop)]
pub struct Aide<M: Machine> {
    pub(crate) chair: Chair<M>,
}

impl<M: Machine> User<M> {
    /// The queue on which it commits, which is its number.
    pub fn queue(&self) -> QueueNo
        ensures { result ≡ self.now.queue }
    {
        self.queue
    }

    /// Counts a call that is refused before it takes a turn, unless as many as may be were made.
    pub fn count_call(&mut self)
        ensures kept { self.new ≡ record self.old { calls = self.new.calls } }
        ensures one { self.old.calls < CALL_LIMIT → self.new.calls ≡ self.old.calls + 1 }
        ensures limit { CALL_LIMIT ≤ self.old.calls → self.new.calls ≡ self.old.calls }
    {
        if self.calls < CALL_LIMIT {
            self.calls += 1;
        }
    }
}
