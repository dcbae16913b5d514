// A port over a port, which reports each changing call to a watch.
ghost use Rattle.std.specs.Prelude.{◌≡◌};

use crate::{Call, Watch};
use mq_blocks::{Block, Lba};
use mq_drive::{HomeStep, Off, Port, Role, Step};
use mq_nvme::Entry;

/// A port that reports each changing call to a watch before it passes the call on. A step counts as a
/// changing call even if it turns out idle; reads aren't reported. Its state and its faults are
/// those of the port below, so that each call has the contract of `Port` by what the port below does.
#[derive(Drop)]
pub struct WatchPort<'w, P: Port, W: Watch> {
    port: P,
    watch: &'w W,
}

impl<'w, P: Port, W: Watch> WatchPort<'w, P, W> {
    /// A port over the given one.
    pub fn new(port: P, watch: &'w W) -> WatchPort<'w, P, W>
        ensures { result.port ≡ port }
    {
        WatchPort { port, watch }
    }

    /// The port below.
    pub fn into_inner(self) -> P
        ensures { result ≡ self.entry.port }
    {
        self.port
    }

    // Reports a call of this port to the watch.
    fn tell(&self, call: Call) {
        self.watch.before(self.port.role(), call);
    }
}

impl<'w, P: Port, W: Watch> Port for WatchPort<'w, P, W> {
    ghost state = { λ p. P.state p.port };

    ghost faults = { λ p. P.faults p.port };

    fn role(&self) -> Role {
        self.port.role()
    }

    fn doorbell(&self) -> u64 {
        self.port.doorbell()
    }

    fn head(&self) -> u64 {
        self.port.head()
    }

    fn base(&self) -> u64 {
        self.port.base()
    }

    fn read_slot(&self, slot: u32) -> Entry {
        self.port.read_slot(slot)
    }

    fn read_block(&self, lba: Lba, into: &mut Block) {
        self.port.read_block(lba, into);
    }

    fn stage(&mut self, at: u64, entry: Entry, block: Block) -> Result<(), Off> {
        self.tell(Call::Stage);
        self.port.stage(at, entry, block)
    }

    fn flush(&mut self) -> Result<(), Off> {
        self.tell(Call::Flush);
        self.port.flush()
    }

    fn ring(&mut self, tail: u64) -> Result<(), Off> {
        self.tell(Call::Ring);
        self.port.ring(tail)
    }

    fn step(&mut self) -> Result<Step, Off> {
        self.tell(Call::Step);
        self.port.step()
    }

    fn store_head(&mut self, head: u64) -> Result<(), Off> {
        self.tell(Call::StoreHead);
        self.port.store_head(head)
    }

    fn store_base(&mut self, base: u64) -> Result<(), Off> {
        self.tell(Call::StoreBase);
        self.port.store_base(base)
    }

    fn write_home(&mut self, lba: Lba, block: Block) -> Result<HomeStep, Off> {
        self.tell(Call::WriteHome);
        self.port.write_home(lba, block)
    }
}
