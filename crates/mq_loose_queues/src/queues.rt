// The queues of a drive, each with its part of a journal of the loose order.
ghost use Rattle.std.specs.Prelude.{◌≡◌, ◌≤◌, ◌<◌, ◌^◌, ℕ, List, [], IfErr, IfOk, length, vec_capacity, vec_len};
ghost use Rattle.mq_ledger.specs.State.{State};
ghost use Rattle.mq_ledger.specs.declared.tx.Tx.{Tx};
ghost use Rattle.mq_loose.specs.Guards.{settled};
ghost use Rattle.mq_recover.specs.Drives.{drive_of, faults_on};
ghost use Rattle.mq_loose_queues.specs.Commits.{Commits, IsRequest};
ghost use Rattle.mq_loose_queues.specs.Drains.{IsDrainOf};
ghost use Rattle.mq_loose_queues.specs.Journal.{IsJournal, state_over};
ghost use Rattle.mq_loose_queues.specs.Opening.{IsOpened, MayOpen, home_map};
ghost use Rattle.mq_loose_queues.specs.Queues.{drive_in, faults_in, parts_state};

use crate::LooseRefusal;
use crate::changes::first_changes;
use crate::parts::Parts;
use mq_blocks::{Block, BlockNo, Geometry, OutOfMemory, QueueNo, TxNo};
use mq_drive::{Port, Ports};
use mq_loose_recover::LooseStanding;
use mq_queue_side::{Cause, Root, open_sides, unmake_sides};
use std::alloc::Global;

/// Commits on several queues, in the loose order: a number is settled once it and all on which it depends are
/// done.
#[derive(Drop)]
pub struct LooseQueues<P: Port> {
    parts: Parts<P>,
    // where the ports go at the end, so that this takes no memory
    spare: Vec<P>,
    ghost journal: { ∥ ((s : State) × (h : List Tx) × IsJournal s h (parts_state P.state P.faults parts)) ∥₁ },
    ghost empty: { spare.items ≡ [] },
    ghost room: { vec_len parts.sides ≤ vec_capacity spare },
}

impl<P: Port + Drop> LooseQueues<P> {
    /// The queues of a drive that was recovered, over what stands on its home blocks: all of them count as in the
    /// map. A refusal gives the ports back.
    pub fn open(
        alloc: Global,
        geometry: Geometry,
        ports: Ports<P>,
        standing: LooseStanding,
    ) -> Result<LooseQueues<P>, (Ports<P>, OutOfMemory)>
        requires { MayOpen geometry (drive_of P.state ports) standing }
        ensures ok { IfOk result (λ q. IsOpened geometry (drive_of P.state ports) (faults_on P.faults ports)
            (home_map standing.blocks.items) (parts_state P.state P.faults q.parts)) }
        ensures err { IfErr result (λ e. (e.0.queues.items ≡ ports.queues.items) × (e.0.root ≡ ports.root)) }
    {
        let Ports { queues, root } = ports;
        let Ok(changes) = first_changes(alloc, geometry, standing.base) else {
            return Err((Ports { queues, root }, OutOfMemory));
        };
        match open_sides(alloc, geometry, queues) {
            Ok((sides, spare)) => Ok(LooseQueues {
                parts: Parts {
                    geometry,
                    sides,
                    root: Root::open(root),
                    changes,
                    rows: Vec::new(alloc),
                    flags: Vec::new(alloc),
                },
                spare,
            }),
            Err((queues, full)) => Err((Ports { queues, root }, full)),
        }
    }

    /// Commits these writes and frees on a queue: all that is written is logged. Returns the number. A refusal
    /// before the draw leaves everything as it was.
    pub fn commit(
        &mut self,
        alloc: Global,
        queue: QueueNo,
        writes: &[(BlockNo, Block)],
        frees: &[BlockNo],
    ) -> Result<TxNo, LooseRefusal>
        requires request { IsRequest (parts_state P.state P.faults self.old.parts) queue writes.now frees.now }
        requires few { length self.old.parts.rows.items < 2 ^ 62 }
        ensures { Commits (parts_state P.state P.faults self.old.parts) queue writes.now frees.now result
            (parts_state P.state P.faults self.new.parts) }
    {
        self.parts.commit(alloc, queue, writes, frees)
    }

    /// Drains a queue. Returns the number of its last transaction that is done. It takes no memory.
    pub fn drain(&mut self, queue: QueueNo) -> Result<TxNo, Cause>
        requires { queue < length self.old.parts.sides.items }
        ensures { IsDrainOf (parts_state P.state P.faults self.old.parts) queue result
            (parts_state P.state P.faults self.new.parts) }
    {
        self.parts.drain(queue)
    }

    /// Whether a number and all on which it depends, step by step, are done. It takes no memory.
    pub fn settled(&self, number: TxNo) -> bool
        ensures { (s : State) (h : List Tx)
            → IsJournal s h (parts_state P.state P.faults self.now.parts)
            → result ≡ settled (state_over s h [] (parts_state P.state P.faults self.now.parts)) number }
    {
        self.parts.is_settled(number)
    }

    /// The ports, as they are. It takes no memory.
    pub fn into_ports(self) -> Ports<P>
        ensures drive { drive_of P.state result ≡ drive_in (parts_state P.state P.faults self.parts) }
        ensures faults { faults_on P.faults result ≡ faults_in (parts_state P.state P.faults self.parts) }
    {
        let LooseQueues { parts, mut spare } = self;
        unmake_sides(parts.sides, &mut spare);
        spare.reverse();
        Ports {
            queues: spare,
            root: parts.root.into_port(),
        }
    }
}
