// The parts of a machine that both orders have.
ghost use Rattle.std.specs.Prelude.{◌↔◌, IsTrue};
ghost use Rattle.mq_ledger.specs.KnownJournal.{IsTx};
ghost use Rattle.mq_ledger.specs.State.{from_at, port_at};
ghost use Rattle.mq_core.specs.Events.{HasRoom, us_of};
ghost use Rattle.mq_core.specs.Parts.{AreHeld, whole};

use crate::PlainPort;
use mq_blocks::TxNo;
use mq_ledger::{Ledger, Tx, descriptor_blocks};

/// The ledger, the ports of the queues and the root's.
#[derive(Clone, Copy)]
pub struct Parts<'a> {
    pub ledger: &'a Ledger,
    pub ports: &'a [PlainPort],
    pub root: &'a PlainPort,
}

impl<'a> Parts<'a> {
    /// Whether the entries of a transaction fit into ring and area of its queue.
    pub fn has_room(self, tx: &Tx) -> bool
        requires held { AreHeld self.ledger.now.front (whole self) }
        requires tx { IsTx (whole self).geometry tx.now }
        ensures { IsTrue result
            ↔ HasRoom (whole self.entry).geometry (from_at (whole self.entry).starts tx.now.queue) (whole self.entry).root.base
            (us_of (whole self.entry) tx.now.queue) tx.now (port_at (whole self.entry).ports tx.now.queue) }
    {
        let port = &self.ports[tx.queue.0 as usize];
        let end = self.ledger.end(tx.queue);
        let place = self.ledger.next_place(tx.queue);
        let covered = self.ledger.covered_place(tx.queue, TxNo(self.root.base()));
        let logged = &tx.logged;
        let direct = &tx.direct;
        let copies = logged.0.len() as u64;
        let blocks = descriptor_blocks(tx);
        let entries = copies + direct.0.len() as u64 + blocks;
        port.is_rung_to(end)
            && entries <= port.room()
            && place + copies + blocks <= covered + u64::from(self.ledger.geometry().area())
            && place + copies + blocks <= 1 << 62
            && end + entries <= 1 << 63
    }
}
