// What a replica holds.
use crate::opened::Opened;
use mq_drive::{Port, Ports};

/// The ports of a replica, open or taken apart.
#[derive(Drop)]
pub enum Held<Q: Port> {
    /// With a side and a root, on which nothing is under way.
    Opened(Opened<Q>),
    /// As they are between two openings of the side: each has one image.
    Apart(Ports<Q>),
    /// As a cause of the drive left them.
    Stopped(Ports<Q>),
}

impl<Q: Port> Held<Q> {
    ghost use Rattle.std.specs.Prelude.{◌≡◌};
    ghost use Rattle.mq_replica.specs.Held.{is_stopped};

    /// Whether a cause of the drive stopped the replica.
    pub fn is_stopped(&self) -> bool
        ensures { result ≡ is_stopped self.now }
    {
        matches!(self, Held::Stopped(_))
    }
}
