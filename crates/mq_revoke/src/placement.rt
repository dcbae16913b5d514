// The plan of a transaction's writes.
ghost use Rattle.std.specs.Prelude.{◌≡◌, ◌<◌, ◌≤◌, ◌+◌, ◌++◌, ◌∷◌, ◌↔◌, [], length, vec_len, vec_capacity, IfOk, IfErr, OnOk, OnErr, IsTrue};
ghost use Rattle.mq_blocks.specs.Geometry.{homes_of, write_limit};
ghost use Rattle.mq_revoke.specs.Placing.{IsDirect, IsCopied, AreInOrder, IsPlacement};

use mq_blocks::{BlockNo, Geometry, LIST_LIMIT, OutOfMemory, QueueNo, TxNo};
use std::alloc::Global;
use std::marker::Model;

/// A block that a transaction writes.
#[derive(Clone, Copy, PartialEq, Eq)]
pub struct Planned {
    pub block: BlockNo,
    /// Whether it holds bytes of a file, not metadata.
    pub is_data: bool,
    /// Whether it was free before the transaction.
    pub was_free: bool,
    /// The last transaction that changed it, or the base where none has.
    pub version: TxNo,
    /// The last transaction that logged it, or the base where none has.
    pub last_logged: TxNo,
}

impl Planned {
    // Whether the queue writes it directly at home.
    fn is_direct(&self, geometry: &Geometry, queue: QueueNo, front: TxNo) -> bool
        requires { self.now.block < homes_of geometry.now }
        ensures { IsTrue result ↔ IsDirect geometry.now queue front self.now }
    {
        self.is_data
            && self.was_free
            && self.version <= front
            && geometry.zone_of(self.block) == Some(queue)
    }

    // Whether a copy of it may still stand in a journal area.
    fn is_copied(&self, base: TxNo) -> bool
        ensures { IsTrue result ↔ IsCopied base self.now }
    {
        self.last_logged > base
    }
}

/// Where the blocks of a transaction go, each list in rising order. Every list has room for as many
/// blocks as a transaction may write.
#[derive(Drop)]
pub struct Placement {
    /// What is written as a copy in the journal area of the queue.
    pub logged: Vec<BlockNo>,
    /// What is written to its home block by the queue itself.
    pub direct: Vec<BlockNo>,
    /// The direct blocks whose earlier copies no longer count.
    pub revoked: Vec<BlockNo>,
}

impl Model for Placement {
    ghost use Rattle.std.specs.Prelude.{vec_capacity};
    ghost use Rattle.mq_revoke.specs.Placed.{Placed, HasRoom};

    ghost Value = { Placed };

    ghost view = { λ p. record { logged = p.logged.items; direct = p.direct.items; revoked = p.revoked.items } };

    ghost invariant = { λ p. HasRoom (vec_capacity p.logged) (vec_capacity p.direct) (vec_capacity p.revoked) };
}

/// A transaction writes more blocks than a transaction may write.
#[derive(Clone, Copy, PartialEq, Eq)]
pub struct TooLarge {
    pub count: u32,
    pub limit: u32,
}

impl Placement {
    /// Empty lists.
    pub fn new(alloc: Global) -> Result<Placement, OutOfMemory>
        ensures { IfOk result (λ p. p ≡ record { logged = []; direct = []; revoked = [] }) }
    {
        Ok(Placement {
            logged: Vec::with_capacity(alloc, LIST_LIMIT as usize)?,
            direct: Vec::with_capacity(alloc, LIST_LIMIT as usize)?,
            revoked: Vec::with_capacity(alloc, LIST_LIMIT as usize)?,
        })
    }

    // Empties the lists, which keep their room.
    fn clear(&mut self)
        ensures { self.new ≡ record { logged = []; direct = []; revoked = [] } }
    {
        self.logged.clear();
        self.direct.clear();
        self.revoked.clear();
    }
}

// Adds a block where there is room.
fn add(blocks: &mut Vec<BlockNo>, block: BlockNo)
    requires { vec_len blocks.old < vec_capacity blocks.old }
    ensures items { blocks.new.items ≡ blocks.old.items ++ block ∷ [] }
    ensures capacity { vec_capacity blocks.old ≤ vec_capacity blocks.new }
{
    match blocks.push(block) {
        Ok(()) => {}
        Err(_) => unreachable!(),
    }
}

/// Places the blocks that a transaction of the queue writes, by a front and a base: all transactions up
/// to the front are done, and no copy up to the base counts any longer. The call is refused if there are
/// more writes than a transaction may have on this drive. The former content of the plan is dropped.
pub fn plan(
    writes: &[Planned],
    geometry: Geometry,
    queue: QueueNo,
    front: TxNo,
    base: TxNo,
    into: &mut Placement,
) -> Result<(), TooLarge>
    requires { AreInOrder geometry writes.now }
    ensures ok { OnOk result (IsPlacement geometry queue front base writes.now into.new) }
    ensures whole { OnOk result (length into.new.logged + length into.new.direct ≡ length writes.now) }
    ensures few { OnOk result (length writes.now ≤ write_limit geometry) }
    ensures many { IfErr result (λ e. (write_limit geometry < length writes.now)
        × (e ≡ record { count = length writes.now; limit = write_limit geometry })) }
    ensures same { OnErr result (into.new ≡ into.old) }
{
    let limit = geometry.write_limit();
    if writes.len() > limit as usize {
        return Err(TooLarge {
            count: writes.len() as u32,
            limit,
        });
    }
    into.clear();
    for write in writes {
        if write.is_direct(&geometry, queue, front) {
            add(&mut into.direct, write.block);
            if write.is_copied(base) {
                add(&mut into.revoked, write.block);
            }
        } else {
            add(&mut into.logged, write.block);
        }
    }
    Ok(())
}
