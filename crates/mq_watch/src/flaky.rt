// A port over a port, which refuses one call.
ghost use Rattle.std.specs.Prelude.{◌≡◌, ◌≢◌, ◌<◌, ◌≤◌, ◌-◌, ◌^◌, ◌↔◌, IsTrue, IsErr, IsSome, IsNone, OnOk, OnErr, length, [], ◌∷◌, true, false};
ghost use Rattle.mq_blocks.specs.Limits.{usable_depth};

use mq_blocks::{Block, Lba};
use mq_drive::{HomeStep, Off, Port, Role, Step};
use mq_nvme::Entry;

/// A port whose power is off for one of its changing calls: that call returns `Off` and does not
/// reach the port below. Every other call goes on. An idle step is not a changing call.
#[derive(Drop)]
pub struct FlakyPort<P: Port> {
    port: P,
    // the changing call to refuse, counted from the next as 1; 0 is none
    refuse: u64,
    refused: bool,
    staged: u64,
    posted: u64,
    ghost counts_staged: { staged ≡ length (P.state port).pending },
    ghost counts_posted: { posted ≡ length (P.state port).posted },
    ghost once: { refused ≡ true → refuse ≡ 0 },
    ghost few: { length (P.state port).posted ≤ (P.state port).doorbell },
}

impl<P: Port> FlakyPort<P> {
    /// Refuses the changing call of this number, counted from 1; 0 refuses none. Nothing is staged
    /// or posted on the port.
    pub fn new(port: P, refuse: u64) -> FlakyPort<P>
        requires staged { (P.state port).pending ≡ [] }
        requires posted { (P.state port).posted ≡ [] }
        ensures port { result.port ≡ port }
        ensures refuse { result.refuse ≡ refuse }
        ensures refused { result.refused ≡ false }
    {
        FlakyPort {
            port,
            refuse,
            refused: false,
            staged: 0,
            posted: 0,
        }
    }

    /// The port below.
    pub fn into_inner(self) -> P
        ensures { result ≡ self.port }
    {
        self.port
    }
}

impl<P: Port> FlakyPort<P> {
    ghost use Rattle.mq_watch.specs.Flaky.{with_refused};
    ghost use Rattle.mq_drive.specs.Steps.{PowerOff};

    // Counts a changing call, and returns whether it is the one to refuse.
    fn is_refused(&mut self) -> bool
        ensures port { self.new.port ≡ self.old.port }
        ensures yes { IsTrue result
            → with_refused self.new.refused
            (P.faults self.old.port) ≡ PowerOff ∷ with_refused self.old.refused (P.faults self.old.port) }
        ensures marked { IsTrue result → self.new.refused ≡ true }
        ensures no { result ≡ false → self.new.refused ≡ self.old.refused }
        ensures which { IsTrue result ↔ (self.old.refuse ≡ 1) }
        ensures refuse { self.new.refuse ≡ self.old.refuse - 1 }
    {
        let is = self.refuse == 1;
        if is {
            self.refused = true;
        }
        self.refuse = self.refuse.saturating_sub(1);
        is
    }
}

impl<P: Port> Port for FlakyPort<P> {
    ghost use Rattle.mq_watch.specs.Flaky.{with_refused};
    ghost use Rattle.mq_blocks.specs.Drive.{IsHome, AreFrom, staged_end, after_stage, after_flush, after_ring};
    ghost use Rattle.mq_blocks.specs.Drive.{after_store_head, after_store_base};
    ghost use Rattle.mq_nvme.specs.Entry.{tx_of, lba_of};
    ghost use Rattle.mq_drive.specs.Steps.{StepGives, HomeGives, OffCause, IsOwnWrite};

    ghost state = { λ p. P.state p.port };

    ghost faults = { λ p. with_refused p.refused (P.faults p.port) };

    fn role(&self) -> Role {
        self.port.role()
    }

    fn doorbell(&self) -> u64 {
        self.port.doorbell()
    }

    fn head(&self) -> u64 {
        self.port.head()
    }

    fn base(&self) -> u64 {
        self.port.base()
    }

    fn read_slot(&self, slot: u32) -> Entry {
        self.port.read_slot(slot)
    }

    fn read_block(&self, lba: Lba, into: &mut Block) {
        self.port.read_block(lba, into);
    }

    fn stage(&mut self, at: u64, entry: Entry, block: Block) -> Result<(), Off>
        requires queue { IsSome (P.state self.old.port).queue }
        requires next { at ≡ staged_end (P.state self.old.port) }
        requires below { at < 2 ^ 63 }
        requires order { (P.state self.old.port).stored_head ≤ (P.state self.old.port).doorbell }
        requires room { at - (P.state self.old.port).head < usable_depth }
        requires write { IsOwnWrite (P.state self.old.port) at entry }
        ensures ok { OnOk result (P.state self.new.port ≡ after_stage (P.state self.old.port) entry
            (tx_of entry) (lba_of entry) block) }
        ensures off { OnErr result (P.state self.new.port ≡ P.state self.old.port) }
        ensures cause { OffCause result (with_refused self.old.refused (P.faults self.old.port))
            (with_refused self.new.refused (P.faults self.new.port)) }
        ensures counts { self.new.refuse ≡ self.old.refuse - 1 }
        ensures refuses { self.old.refuse ≡ 1
            → IsErr result × (self.new.port ≡ self.old.port) × (self.new.refused ≡ true) }
        ensures passes { self.old.refuse ≢ 1
            → OffCause result (P.faults self.old.port) (P.faults self.new.port)
            × (self.new.refused ≡ self.old.refused) }
    {
        if self.is_refused() {
            return Err(Off);
        }
        self.port.stage(at, entry, block)?;
        self.staged += 1;
        Ok(())
    }

    fn flush(&mut self) -> Result<(), Off>
        ensures ok { OnOk result (P.state self.new.port ≡ after_flush (P.state self.old.port)) }
        ensures off { OnErr result (P.state self.new.port ≡ P.state self.old.port) }
        ensures cause { OffCause result (with_refused self.old.refused (P.faults self.old.port))
            (with_refused self.new.refused (P.faults self.new.port)) }
        ensures counts { self.new.refuse ≡ self.old.refuse - 1 }
        ensures refuses { self.old.refuse ≡ 1
            → IsErr result × (self.new.port ≡ self.old.port) × (self.new.refused ≡ true) }
        ensures passes { self.old.refuse ≢ 1
            → OffCause result (P.faults self.old.port) (P.faults self.new.port)
            × (self.new.refused ≡ self.old.refused) }
    {
        if self.is_refused() {
            return Err(Off);
        }
        self.port.flush()
    }

    fn ring(&mut self, tail: u64) -> Result<(), Off>
        requires tail { tail ≡ staged_end (P.state self.old.port) }
        requires flushed { (P.state self.old.port).flushed_end ≡ tail }
        ensures ok { OnOk result (P.state self.new.port ≡ after_ring (P.state self.old.port)) }
        ensures off { OnErr result (P.state self.new.port ≡ P.state self.old.port) }
        ensures cause { OffCause result (with_refused self.old.refused (P.faults self.old.port))
            (with_refused self.new.refused (P.faults self.new.port)) }
        ensures counts { self.new.refuse ≡ self.old.refuse - 1 }
        ensures refuses { self.old.refuse ≡ 1
            → IsErr result × (self.new.port ≡ self.old.port) × (self.new.refused ≡ true) }
        ensures passes { self.old.refuse ≢ 1
            → OffCause result (P.faults self.old.port) (P.faults self.new.port)
            × (self.new.refused ≡ self.old.refused) }
    {
        if self.is_refused() {
            return Err(Off);
        }
        self.port.ring(tail)?;
        self.posted += self.staged;
        self.staged = 0;
        Ok(())
    }

    fn step(&mut self) -> Result<Step, Off>
        ensures gives { StepGives (P.state self.old.port)
            (with_refused self.old.refused (P.faults self.old.port)) result (P.state self.new.port)
            (with_refused self.new.refused (P.faults self.new.port)) }
        ensures idle { (P.state self.old.port).posted ≡ [] → self.new.refuse ≡ self.old.refuse }
        ensures counts { (P.state self.old.port).posted ≢ [] → self.new.refuse ≡ self.old.refuse - 1 }
        ensures refuses { (P.state self.old.port).posted ≢ []
            → self.old.refuse ≡ 1
            → IsErr result × (self.new.port ≡ self.old.port) × (self.new.refused ≡ true) }
        ensures passes { (self.old.refuse ≡ 1 → (P.state self.old.port).posted ≡ [])
            → StepGives (P.state self.old.port) (P.faults self.old.port) result (P.state self.new.port)
            (P.faults self.new.port)
            × (self.new.refused ≡ self.old.refused) }
    {
        if self.posted == 0 {
            return self.port.step();
        }
        if self.is_refused() {
            return Err(Off);
        }
        let step = self.port.step()?;
        self.posted -= 1;
        Ok(step)
    }

    fn store_head(&mut self, head: u64) -> Result<(), Off>
        requires low { (P.state self.old.port).head ≤ head }
        requires high { head ≤ (P.state self.old.port).doorbell }
        requires posted { AreFrom head (P.state self.old.port).posted }
        requires failed { AreFrom head (P.state self.old.port).failed }
        ensures ok { OnOk result (P.state self.new.port ≡ after_store_head (P.state self.old.port) head) }
        ensures off { OnErr result (P.state self.new.port ≡ P.state self.old.port) }
        ensures cause { OffCause result (with_refused self.old.refused (P.faults self.old.port))
            (with_refused self.new.refused (P.faults self.new.port)) }
        ensures counts { self.new.refuse ≡ self.old.refuse - 1 }
        ensures refuses { self.old.refuse ≡ 1
            → IsErr result × (self.new.port ≡ self.old.port) × (self.new.refused ≡ true) }
        ensures passes { self.old.refuse ≢ 1
            → OffCause result (P.faults self.old.port) (P.faults self.new.port)
            × (self.new.refused ≡ self.old.refused) }
    {
        if self.is_refused() {
            return Err(Off);
        }
        self.port.store_head(head)
    }

    fn store_base(&mut self, base: u64) -> Result<(), Off>
        requires root { IsNone (P.state self.old.port).queue }
        requires low { (P.state self.old.port).base ≤ base }
        ensures ok { OnOk result (P.state self.new.port ≡ after_store_base (P.state self.old.port) base) }
        ensures off { OnErr result (P.state self.new.port ≡ P.state self.old.port) }
        ensures cause { OffCause result (with_refused self.old.refused (P.faults self.old.port))
            (with_refused self.new.refused (P.faults self.new.port)) }
        ensures counts { self.new.refuse ≡ self.old.refuse - 1 }
        ensures refuses { self.old.refuse ≡ 1
            → IsErr result × (self.new.port ≡ self.old.port) × (self.new.refused ≡ true) }
        ensures passes { self.old.refuse ≢ 1
            → OffCause result (P.faults self.old.port) (P.faults self.new.port)
            × (self.new.refused ≡ self.old.refused) }
    {
        if self.is_refused() {
            return Err(Off);
        }
        self.port.store_base(base)
    }

    fn write_home(&mut self, lba: Lba, block: Block) -> Result<HomeStep, Off>
        requires { IsHome (P.state self.old.port) lba }
        ensures gives { HomeGives (P.state self.old.port)
            (with_refused self.old.refused (P.faults self.old.port)) lba block result
            (P.state self.new.port) (with_refused self.new.refused (P.faults self.new.port)) }
        ensures counts { self.new.refuse ≡ self.old.refuse - 1 }
        ensures refuses { self.old.refuse ≡ 1
            → IsErr result × (self.new.port ≡ self.old.port) × (self.new.refused ≡ true) }
        ensures passes { self.old.refuse ≢ 1
            → HomeGives (P.state self.old.port) (P.faults self.old.port) lba block result
            (P.state self.new.port) (P.faults self.new.port)
            × (self.new.refused ≡ self.old.refused) }
    {
        if self.is_refused() {
            return Err(Off);
        }
        self.port.write_home(lba, block)
    }
}
