// The root: the port of the metadata region and of the base.
ghost use Rattle.std.specs.Prelude.{◌≡◌, ◌≤◌, IsNone, OnOk, OnErr};
ghost use Rattle.mq_blocks.specs.Drive.{IsHome, after_store_base};
ghost use Rattle.mq_drive.specs.Steps.{OffCause, HomeGives};
ghost use Rattle.mq_queue_side.specs.Homes.{RootStaysAt, RootGoesHome};
ghost use Rattle.mq_queue_side.specs.Roots.{IsRootOf, IsRaiseCut, RootStays, after_raise};

use mq_blocks::{Block, Lba, TxNo};
use mq_drive::{HomeStep, Off, Port};

/// The root's port with the base: recovery needs no transaction up to it.
#[derive(Drop)]
pub struct Root<P: Port> {
    port: P,
    // as last flushed and as last stored
    base: TxNo,
    stored: TxNo,
    ghost root: { IsRootOf base stored (P.state port) },
}

impl<P: Port> Root<P> {
    /// The root over its port, whose stored base is flushed. Its base is the port's.
    pub fn open(port: P) -> Root<P>
        requires root { IsNone (P.state port).queue }
        requires flushed { (P.state port).stored_base ≡ (P.state port).base }
        ensures { result.port ≡ port }
    {
        let base = TxNo(port.base());
        Root {
            port,
            base,
            stored: base,
        }
    }

    /// The base as it was last flushed.
    pub fn base(&self) -> TxNo
        ensures { result ≡ (P.state self.now.port).base }
    {
        self.base
    }

    /// The base as it was last stored.
    pub fn stored(&self) -> TxNo
        ensures { result ≡ (P.state self.now.port).stored_base }
    {
        self.stored
    }

    /// Stores a base and flushes it. After `Off` the flushed base is as it was.
    pub fn raise_base(&mut self, base: TxNo) -> Result<(), Off>
        requires { (P.state self.old.port).stored_base ≤ base }
        ensures ok { OnOk result (P.state self.new.port ≡ after_raise (P.state self.old.port) base) }
        ensures off { OnErr result (IsRaiseCut (P.state self.old.port) base (P.state self.new.port)) }
        ensures cause { OffCause result (P.faults self.old.port) (P.faults self.new.port) }
        ensures stays { RootStays (P.state self.old.port) (P.state self.new.port) }
    {
        self.store(base)?;
        self.port.flush()?;
        self.base = self.stored;
        Ok(())
    }

    // Stores a base, and notes it.
    fn store(&mut self, base: TxNo) -> Result<(), Off>
        requires { (P.state self.old.port).stored_base ≤ base }
        ensures ok { OnOk result (P.state self.new.port ≡ after_store_base (P.state self.old.port) base) }
        ensures off { OnErr result (P.state self.new.port ≡ P.state self.old.port) }
        ensures cause { OffCause result (P.faults self.old.port) (P.faults self.new.port) }
    {
        self.port.store_base(base.0)?;
        self.stored = base;
        Ok(())
    }

    /// Writes a home block of the metadata region.
    pub fn write_home(&mut self, lba: Lba, block: Block) -> Result<HomeStep, Off>
        requires { IsHome (P.state self.old.port) lba }
        ensures home { HomeGives (P.state self.old.port) (P.faults self.old.port) lba block
            result (P.state self.new.port) (P.faults self.new.port) }
        ensures stays { RootStaysAt lba (P.state self.old.port) (P.state self.new.port) }
        ensures goes { RootGoesHome lba block (P.state self.old.port) result (P.state self.new.port) }
    {
        self.port.write_home(lba, block)
    }

    /// The port.
    pub fn into_port(self) -> P
        ensures { result ≡ self.port }
    {
        self.port
    }
}
