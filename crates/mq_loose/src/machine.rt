// The machine.
mod homes;
mod numbers;
mod rings;
mod rows;
mod runs;
mod settled;

ghost use Rattle.std.specs.Prelude.{◌≡◌, ◌≤◌, ◌^◌, IfOk, List, length};
ghost use Rattle.mq_ledger.specs.History.{AreNumbered, IsAt};
ghost use Rattle.mq_ledger.specs.declared.tx.Tx.{Tx as Record};
ghost use Rattle.mq_loose.specs.Rows.{row_for, HasNumber};
ghost use Rattle.mq_blocks.specs.Geometry.{homes_of};
ghost use Rattle.mq_ledger.specs.Plain.{plain};
ghost use Rattle.mq_core.specs.Start.{start_state};
ghost use Rattle.mq_loose.specs.Safe.{Facts, IsSafe};

use mq_blocks::{BlockNo, Geometry, OutOfMemory, TxNo};
use mq_core::{PlainPort, fresh_queues, starts};
use mq_ledger::{Content, Ledger, copy_blocks};
pub use rows::{LooseRow, row_with};
pub use settled::are_flagged;
use std::alloc::Global;
use std::marker::Model;

/// The journal as a pure machine of the loose order, always in a safe state.
#[derive(Drop)]
pub struct LooseCore {
    ledger: Ledger,
    /// What the ledger does not tell of each transaction.
    rows: Vec<LooseRow>,
    ports: Vec<PlainPort>,
    root: PlainPort,
    writing: Vec<BlockNo>,
    acknowledged: Vec<TxNo>,
}

impl Model for LooseCore {
    ghost use Rattle.mq_ledger.specs.State.{State};
    ghost use Rattle.mq_loose.specs.View.{state_of, HasFacts};

    ghost Value = { State };

    ghost view = { state_of };

    ghost invariant = { HasFacts };
}

impl LooseCore {
    /// The machine before its first event, on a drive that has these home blocks: `None` is a free
    /// block.
    pub fn start(
        alloc: Global,
        geometry: Geometry,
        blocks: &[Option<Content>],
        base: TxNo,
    ) -> Result<LooseCore, OutOfMemory>
        requires blocks { length blocks.now ≡ homes_of geometry }
        requires base { base ≤ 2 ^ 62 }
        ensures { IfOk result (λ c. c ≡ start_state geometry blocks.now base) }
    {
        starts();
        let homes = copy_blocks(alloc, &blocks[..geometry.meta() as usize])?;
        Ok(LooseCore {
            ledger: Ledger::start(alloc, geometry, blocks, base)?,
            rows: Vec::new(alloc),
            ports: fresh_queues(alloc, geometry, blocks)?,
            root: PlainPort::fresh(alloc, geometry, None, homes, base)?,
            writing: Vec::new(alloc),
            acknowledged: Vec::new(alloc),
        })
    }

    /// Whatever a power cut leaves of the machine's drive is readable. The transactions that stand on it are
    /// closed under dependence and have all that was acknowledged, and it stands for the map after these.
    pub fn is_safe(&self)
        ensures safe { IsSafe plain self.now }
        ensures facts { Facts plain self.now }
    {
        let _ = &self.ledger;
    }

    /// The number that the history starts from.
    fn base(&self) -> u64
        ensures is { result ≡ self.now.base }
        ensures numbers { AreNumbered self.now.base self.now.history }
    {
        self.ledger.last().0 - self.rows.len() as u64
    }

    /// What is kept of the transaction of a number.
    fn row(&self, number: TxNo) -> &LooseRow
        requires { HasNumber number self.now.history }
        ensures { (t : Record) (ts : List Record)
            → IsAt t ts self.now.history
            → t.number ≡ number
            → result.now ≡ row_for self.now.base self.now.starts t ts }
    {
        let at = number.0 - self.base() - 1;
        &self.rows[at as usize]
    }
}
