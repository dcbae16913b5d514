// A store on a desk, and its sessions.
ghost use Rattle.std.specs.Prelude.{◌≡◌, ◌≤◌, length};
ghost use Rattle.mq_blocks.specs.Geometry.{homes_of, queues_of};
ghost use Rattle.mq_turns.specs.AtDesk.{chairs_of, start_of};

use mq_blocks::Geometry;
use mq_drive::Port;
use mq_journal::JournalMachine;
use mq_kv_entries::KvGroups;
use mq_sessions::{Shaped, User};
use mq_turns::Desk;

/// The machine of a store over ports of this kind: pages are cells of home blocks, sides those of queues, and
/// entries groups of operations.
pub type KvMachine<P> = JournalMachine<P, KvGroups>;

/// A store over the ports of a drive. Threads share it by `&`, each with a session of its own.
pub type Kv<P> = Store<KvMachine<P>>;

/// One user of a store, whose groups run one after another. It commits on a queue of its own.
pub type KvSession<P> = User<KvMachine<P>>;

/// A store on the desk of a machine.
#[derive(Drop)]
pub struct Store<M: Shaped> {
    pub(crate) desk: Desk<M>,
    pub(crate) geometry: Geometry,
    ghost shape: { M.shape (start_of desk) ≡ geometry },
    ghost pages: { length (start_of desk).pages ≡ homes_of geometry },
    ghost sides: { length (start_of desk).sides ≡ queues_of geometry },
    ghost chairs: { chairs_of desk ≤ 16 },
}

impl<P: Port + Drop> Kv<P> {
    /// The geometry of the drive.
    pub fn geometry(&self) -> Geometry
        ensures { result ≡ self.now.geometry }
    {
        self.geometry
    }
}
