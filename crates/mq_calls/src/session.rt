// A file system on a desk, and its sessions.
ghost use Rattle.std.specs.Prelude.{◌≡◌, ◌≤◌, length};
ghost use Rattle.mq_blocks.specs.Geometry.{homes_of, queues_of};
ghost use Rattle.mq_turns.specs.AtDesk.{chairs_of, start_of};

use crate::machine::FileMachine;
use mq_blocks::Geometry;
use mq_drive::Port;
use mq_sessions::{Shaped, User};
use mq_turns::Desk;

/// A file system over the ports of a drive. Threads share it by `&`, each with a session of its own.
pub type Mqfs<P> = FileSystem<FileMachine<P>>;

/// One user of a file system, whose groups run one after another. It commits on a queue of its own.
pub type Session<P> = User<FileMachine<P>>;

/// A file system on the desk of a machine.
#[derive(Drop)]
pub struct FileSystem<M: Shaped> {
    pub(crate) desk: Desk<M>,
    pub(crate) geometry: Geometry,
    ghost shape: { M.shape (start_of desk) ≡ geometry },
    ghost pages: { length (start_of desk).pages ≡ homes_of geometry },
    ghost sides: { length (start_of desk).sides ≡ queues_of geometry },
    ghost chairs: { chairs_of desk ≤ 32 },
}

impl<P: Port + Drop> Mqfs<P> {
    /// The geometry of the drive.
    pub fn geometry(&self) -> Geometry
        ensures { result ≡ self.now.geometry }
    {
        self.geometry
    }
}
