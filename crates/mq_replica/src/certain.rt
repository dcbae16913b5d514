// A port that keeps what is certain of its journal area.
ghost use Rattle.std.specs.Prelude.{◌≡◌, ◌≢◌, ◌<◌, ◌≤◌, ◌-◌, ◌^◌, IsSome, IsNone, OnOk, OnErr};
ghost use Rattle.mq_blocks.specs.Limits.{usable_depth};
ghost use Rattle.mq_replica.specs.Certain.{HasOneBase, IsAreaCertain, IsCertainUnlessFailed};

use mq_blocks::{Block, Lba};
use mq_drive::{HomeStep, Off, Port, Role, Step};
use mq_nvme::Entry;

/// A port over a port, which does the same. Every block of its journal area is certain, but for posted
/// writes, as long as no command has failed: so once all are done, recovery may read it.
#[derive(Drop)]
pub struct CertainPort<P: Port> {
    port: P,
    ghost certain: { IsCertainUnlessFailed (P.state port) },
    ghost base: { HasOneBase (P.state port) },
}

impl<P: Port> CertainPort<P> {
    /// Over a port of whose journal area all is certain.
    pub fn new(port: P) -> CertainPort<P>
        requires certain { IsAreaCertain (P.state port) }
        requires base { (P.state port).stored_base ≡ (P.state port).base }
        ensures { result.port ≡ port }
    {
        CertainPort { port }
    }

    /// The port below.
    pub fn into_inner(self) -> P
        ensures { result ≡ self.port }
    {
        self.port
    }
}

impl<P: Port> Port for CertainPort<P> {
    ghost state = { λ p. P.state p.port };

    ghost faults = { λ p. P.faults p.port };

    fn role(&self) -> Role {
        self.port.role()
    }

    fn doorbell(&self) -> u64 {
        self.port.doorbell()
    }

    fn head(&self) -> u64 {
        self.port.head()
    }

    fn base(&self) -> u64 {
        self.port.base()
    }

    fn read_slot(&self, slot: u32) -> Entry {
        self.port.read_slot(slot)
    }

    fn read_block(&self, lba: Lba, into: &mut Block) {
        self.port.read_block(lba, into);
    }

    fn stage(&mut self, at: u64, entry: Entry, block: Block) -> Result<(), Off> {
        self.port.stage(at, entry, block)
    }

    fn flush(&mut self) -> Result<(), Off> {
        self.port.flush()
    }

    fn ring(&mut self, tail: u64) -> Result<(), Off> {
        self.port.ring(tail)
    }

    fn step(&mut self) -> Result<Step, Off> {
        self.port.step()
    }

    fn store_head(&mut self, head: u64) -> Result<(), Off> {
        self.port.store_head(head)
    }

    fn store_base(&mut self, base: u64) -> Result<(), Off> {
        self.port.store_base(base)
    }

    fn write_home(&mut self, lba: Lba, block: Block) -> Result<HomeStep, Off> {
        self.port.write_home(lba, block)
    }
}
