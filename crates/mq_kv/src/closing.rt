// A store gives its desk back.
ghost use Rattle.std.specs.Prelude.{◌≡◌, IfOk, IfErr, map, vec_len};
ghost use Rattle.std.specs.List.{All};
ghost use Rattle.mq_turns.specs.AtDesk.{AtDesk, chairs_of};

use crate::session::{Kv, KvMachine, KvSession};
use mq_blocks::OutOfMemory;
use mq_drive::Port;
use mq_sessions::leave;
use mq_turns::{Chair, Desk};
use std::alloc::Global;

impl<P: Port + Drop> Kv<P> {
    /// The desk, and the chairs of all its sessions in their order. On out of memory everything is given back
    /// as it was.
    pub fn into_desk(
        self,
        alloc: Global,
        sessions: Vec<KvSession<P>>,
    ) -> Result<
        (Desk<KvMachine<P>>, Vec<Chair<KvMachine<P>>>),
        (Kv<P>, Vec<KvSession<P>>, OutOfMemory),
    >
        requires at { All (λ s. AtDesk self.desk s.chair) sessions.items }
        requires all { vec_len sessions ≡ chairs_of self.desk }
        ensures desk { IfOk result (λ r. r.0 ≡ self.desk) }
        ensures chairs { IfOk result (λ r. r.1.items ≡ map (λ s. s.chair) sessions.items) }
        ensures at { IfOk result (λ r. All (λ c. AtDesk r.0 c) r.1.items) }
        ensures all { IfOk result (λ r. vec_len r.1 ≡ chairs_of r.0) }
        ensures err { IfErr result (λ e. (e.0 ≡ self) × (e.1 ≡ sessions)) }
    {
        let Ok(chairs) = Vec::with_capacity(alloc, sessions.len()) else {
            return Err((self, sessions, OutOfMemory));
        };
        let Kv { desk, .. } = self;
        Ok((desk, leave(sessions, Vec::new(alloc), chairs)))
    }
}
