// The machine.
mod bases;
mod front;
mod homes;
mod numbers;
mod parts;
mod reach;
mod rings;
mod runs;

ghost use Rattle.std.specs.Prelude.{◌≡◌, ◌≤◌, ◌<◌, ◌+◌, ◌^◌, IfOk, length};
ghost use Rattle.mq_blocks.specs.Geometry.{homes_of};
ghost use Rattle.mq_ledger.specs.Plain.{plain};
ghost use Rattle.mq_ledger.specs.State.{IsLawful};
ghost use Rattle.mq_core.specs.Start.{start_state, fresh_ports};

use crate::PlainPort;
pub use bases::store_base;
pub use homes::{home_done, write_home};
use mq_blocks::{BlockNo, Geometry, OutOfMemory, QueueNo, TxNo};
use mq_ledger::{Content, Ledger, copy_blocks, repeated};
pub use numbers::drop_changed;
pub use parts::Parts;
pub use rings::{complete, fail_command, flush, flush_head, next_count, ring, stage, store_head};
use std::alloc::Global;
use std::marker::Model;

/// The journal as a pure machine, always in a lawful state.
#[derive(Drop)]
pub struct Core {
    ledger: Ledger,
    ports: Vec<PlainPort>,
    root: PlainPort,
    marks: Vec<u64>,
    writing: Vec<BlockNo>,
    acknowledged: Vec<TxNo>,
}

impl Model for Core {
    ghost use Rattle.mq_ledger.specs.State.{State};
    ghost use Rattle.mq_core.specs.View.{state_of, HasFacts};

    ghost Value = { State };

    ghost view = { state_of };

    ghost invariant = { HasFacts };
}

/// The ports of the queues, each with its part of these blocks.
pub fn fresh_queues(
    alloc: Global,
    geometry: Geometry,
    blocks: &[Option<Content>],
) -> Result<Vec<PlainPort>, OutOfMemory>
    requires { length blocks.now ≡ homes_of geometry }
    ensures { IfOk result (λ v. v.items ≡ fresh_ports geometry blocks.now 0 geometry.queues) }
{
    let mut ports = Vec::new(alloc);
    for q in 0..geometry.queues() {
        let first = (geometry.meta() + q * geometry.zone()) as usize;
        let end = first + geometry.zone() as usize;
        let homes = copy_blocks(alloc, &blocks[first..end])?;
        ports.push(PlainPort::fresh(alloc, geometry, Some(QueueNo(q)), homes, TxNo(0))?)?;
    }
    Ok(ports)
}

impl Core {
    /// The machine before its first event, on a drive that has these home blocks: `None` is a free
    /// block.
    pub fn start(
        alloc: Global,
        geometry: Geometry,
        blocks: &[Option<Content>],
        base: TxNo,
    ) -> Result<Core, OutOfMemory>
        requires blocks { length blocks.now ≡ homes_of geometry }
        requires base { base ≤ 2 ^ 62 }
        ensures { IfOk result (λ c. c ≡ start_state geometry blocks.now base) }
    {
        let homes = copy_blocks(alloc, &blocks[..geometry.meta() as usize])?;
        let queues = geometry.queues() as usize;
        Ok(Core {
            ledger: Ledger::start(alloc, geometry, blocks, base)?,
            ports: fresh_queues(alloc, geometry, blocks)?,
            root: PlainPort::fresh(alloc, geometry, None, homes, base)?,
            marks: repeated(alloc, u64::MAX, queues)?,
            writing: Vec::new(alloc),
            acknowledged: Vec::new(alloc),
        })
    }

    /// Whatever a power cut leaves of the machine's drive is readable, and stands for a prefix of its
    /// history that has all that was acknowledged.
    pub fn is_lawful(&self)
        ensures { IsLawful plain self.now }
    {
        let _ = &self.ledger;
    }
}
