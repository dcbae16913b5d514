// A file system gives its desk back.
ghost use Rattle.std.specs.Prelude.{◌≡◌, ◌+◌, ◌++◌, IfOk, IfErr, map, vec_len};
ghost use Rattle.std.specs.List.{All};
ghost use Rattle.mq_turns.specs.AtDesk.{AtDesk, chairs_of};

use crate::machine::FileMachine;
use crate::session::{Mqfs, Session};
use crate::settling::Helper;
use mq_blocks::OutOfMemory;
use mq_drive::Port;
use mq_sessions::leave;
use mq_turns::{Chair, Desk};
use std::alloc::Global;

impl<P: Port + Drop> Mqfs<P> {
    /// The desk, and the chairs of all its sessions and then of all its helpers, both in their order. On out
    /// of memory everything is given back as it was.
    pub fn into_desk(
        self,
        alloc: Global,
        sessions: Vec<Session<P>>,
        helpers: Vec<Helper<P>>,
    ) -> Result<
        (Desk<FileMachine<P>>, Vec<Chair<FileMachine<P>>>),
        (Mqfs<P>, Vec<Session<P>>, Vec<Helper<P>>, OutOfMemory),
    >
        requires at { All (λ s. AtDesk self.desk s.chair) sessions.items }
        requires helpers { All (λ h. AtDesk self.desk h.chair) helpers.items }
        requires all { vec_len sessions + vec_len helpers ≡ chairs_of self.desk }
        ensures desk { IfOk result (λ r. r.0 ≡ self.desk) }
        ensures chairs { IfOk result (λ r. r.1.items
            ≡ map (λ s. s.chair) sessions.items ++ map (λ h. h.chair) helpers.items) }
        ensures at { IfOk result (λ r. All (λ c. AtDesk r.0 c) r.1.items) }
        ensures all { IfOk result (λ r. vec_len r.1 ≡ chairs_of r.0) }
        ensures err { IfErr result (λ e. (e.0 ≡ self) × (e.1 ≡ sessions) × (e.2 ≡ helpers)) }
    {
        let Ok(chairs) = Vec::with_capacity(alloc, sessions.len() + helpers.len()) else {
            return Err((self, sessions, helpers, OutOfMemory));
        };
        let Mqfs { desk, .. } = self;
        Ok((desk, leave(sessions, helpers, chairs)))
    }
}
