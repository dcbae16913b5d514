// A port in memory, whose power may go off and on which one command may fail.
ghost use Rattle.std.specs.Prelude.{◌≡◌, ◌<◌, ◌≤◌, ◌-◌, ◌^◌, ℕ, [], true, false, IfOk, OnOk, OnErr, IsSome, IsNone, All, Some, None, Contains};
ghost use Rattle.mq_blocks.specs.Limits.{usable_depth};
ghost use Rattle.mq_drive.specs.Fuse.{above, below, earlier};
ghost use Rattle.mq_drive.specs.Happened.{happened_in};

use crate::device::Device;
use crate::power::Power;
use crate::{Fuse, FuseSeat, HomeStep, Off, Port, PortImage, Role, Step};
use mq_blocks::{Block, Geometry, Lba, OutOfMemory};
use mq_nvme::Entry;
use std::alloc::Global;

/// A port of an emulated drive. It executes the posted commands in an order that a generator
/// chooses. Its power is that of a fuse, which other ports may share, and one of its commands ends
/// with an error, if one is chosen. It may be cut at any time.
#[derive(Drop)]
pub struct EmuPort<'f> {
    // On the heap, so that a port moves as one word.
    device: Box<Device<'f>>,
}

impl<'f> EmuPort<'f> {
    ghost use Rattle.mq_drive.specs.Emu.{emu_state, emu_faults, chance_of, happened_of, executed_of, counts_of, drawn_by};
    ghost use Rattle.mq_drive.specs.Limits.{fails_by};
    ghost use Rattle.mq_drive.specs.Seats.{name_of, fuse_of, tickets_of};
    ghost use Rattle.mq_drive.specs.Start.{IsRole, IsImageOf, start_of, chance_at_start};
    ghost use Rattle.mq_drive.specs.Steps.{PowerOff};

    /// The port of a role of the geometry, which starts from an image of that role, with a seat of a
    /// fuse. Its command number `fail`, counted from 1 over executed entries and home writes alike,
    /// ends with the status Write Fault; 0 names none. `seed` and the port's number choose the order
    /// in which posted commands are executed.
    pub fn new(
        alloc: Global,
        fuse: &'f Fuse,
        seat: FuseSeat,
        geometry: Geometry,
        role: Role,
        image: PortImage,
        fail: Option<u64>,
        seed: u64,
    ) -> Result<EmuPort<'f>, OutOfMemory>
        requires fuse { fuse_of seat ≡ name_of fuse.now }
        requires fresh { tickets_of seat ≡ [] }
        requires role { IsRole geometry role }
        requires image { IsImageOf geometry role image }
        ensures state { IfOk result (λ p. emu_state p ≡ start_of geometry role image
            (name_of fuse.now) fail) }
        ensures faults { IfOk result (λ p. emu_faults p ≡ []) }
        ensures tickets { IfOk result (λ p. (drawn_by p ≡ []) × (happened_of p ≡ 0)) }
        ensures chance { IfOk result (λ p. chance_of p ≡ chance_at_start geometry role seed) }
        ensures counts { IfOk result (λ p. counts_of p ≡ record { completed = 0; executed = 0 }) }
    {
        let power = Power::new(fuse, seat);
        let device = Device::new(alloc, power, geometry, role, image, fail, seed)?;
        Ok(EmuPort {
            device: Box::new(alloc, device)?,
        })
    }

    /// The number of events of this port that happened, a home write's two among them. It stays at
    /// 2^64 - 1 once there.
    pub fn events(&self) -> u64
        ensures is { result ≡ happened_of self.now }
        ensures homes { result ≡ happened_in (emu_state self.now) (emu_faults self.now) }
        ensures state { (emu_state self.now).begins ≡ 0 → result ≡ (emu_state self.now).events }
        ensures tickets { (l : ℕ)
            → (emu_state self.now).fuse.limit ≡ Some l
            → result ≡ below l (drawn_by self.now) }
        ensures most { (l : ℕ) → (emu_state self.now).fuse.limit ≡ Some l → result ≤ l }
        ensures off { (l : ℕ)
            → (emu_state self.now).fuse.limit ≡ Some l
            → Contains (emu_faults self.now) PowerOff
            → 0 < above l (drawn_by self.now) }
        ensures on { (l : ℕ)
            → (emu_state self.now).fuse.limit ≡ Some l
            → 0 < above l (drawn_by self.now)
            → Contains (emu_faults self.now) PowerOff }
        ensures last { (l : ℕ)
            → (emu_state self.now).fuse.limit ≡ Some l
            → above l (earlier (drawn_by self.now)) ≡ 0 }
        ensures unlimited { (emu_state self.now).fuse.limit ≡ None
            → Contains (emu_faults self.now) PowerOff
            → ⊥ }
    {
        self.device.events()
    }

    /// Whether the command that is to fail was executed. If so, it has ended with an error, and no
    /// other has.
    pub fn failed(&self) -> bool
        ensures named { result ≡ fails_by (emu_state self.now).fail (executed_of self.now) }
        ensures errors { result ≡ true → All (λ f. f ≡ PowerOff) (emu_faults self.now) → ⊥ }
        ensures no_error { result ≡ false → All (λ f. f ≡ PowerOff) (emu_faults self.now) }
        ensures none { (emu_state self.now).fail ≡ None → All (λ f. f ≡ PowerOff) (emu_faults self.now) }
    {
        self.device.failed()
    }
}

impl<'f> EmuPort<'f> {
    ghost use Rattle.mq_drive.specs.Choices.{cut_of};
    ghost use Rattle.mq_drive.specs.Emu.{emu_state, emu_faults, chance_of, happened_of, drawn_by};
    ghost use Rattle.mq_drive.specs.Steps.{PowerOff};
    ghost use Rattle.mq_blocks.specs.Drive.{IsImage, IsQuiescent, image_of};
    ghost use Rattle.mq_blocks.specs.declared.geometry.Geometry as geometry;
    ghost use Rattle.mq_drive.specs.Roles.{role_of};
    ghost use Rattle.mq_drive.specs.Seats.{fuse_of, tickets_of};
    ghost use Rattle.mq_drive.specs.Start.{IsPortOf, IsImageOf};

    /// Cuts the power. Returns what that leaves, which is all that is certain, and of the rest what
    /// `pick` and the port's number choose, and the port's seat.
    pub fn cut(self, pick: u64) -> (PortImage, FuseSeat)
        ensures image { IsImage (emu_state self.entry) result.0 }
        ensures quiet { IsQuiescent (emu_state self.entry) → result.0 ≡ image_of (emu_state self.entry) }
        ensures role { (g : geometry.Geometry)
            → IsPortOf g (role_of (emu_state self.entry).queue) (emu_state self.entry)
            → IsImageOf g (role_of (emu_state self.entry).queue) result.0 }
        ensures chosen { result.0 ≡ cut_of (emu_state self.entry) (chance_of self.entry) pick }
        ensures fuse { fuse_of result.1 ≡ (emu_state self.entry).fuse }
        ensures tickets { tickets_of result.1 ≡ drawn_by self.entry }
        ensures events { (l : ℕ)
            → (emu_state self.entry).fuse.limit ≡ Some l
            → below l (tickets_of result.1) ≡ happened_of self.entry }
        ensures homes { (l : ℕ)
            → (emu_state self.entry).fuse.limit ≡ Some l
            → below l (tickets_of result.1) ≡ happened_in (emu_state self.entry) (emu_faults self.entry) }
        ensures off { (l : ℕ)
            → (emu_state self.entry).fuse.limit ≡ Some l
            → Contains (emu_faults self.entry) PowerOff
            → 0 < above l (tickets_of result.1) }
        ensures on { (l : ℕ)
            → (emu_state self.entry).fuse.limit ≡ Some l
            → 0 < above l (tickets_of result.1)
            → Contains (emu_faults self.entry) PowerOff }
    {
        Box::into_inner(self.device).cut(pick)
    }
}

impl<'f> Port for EmuPort<'f> {
    ghost use Rattle.mq_drive.specs.Choices.{StepChooses, HomeChooses};
    ghost use Rattle.mq_drive.specs.Emu.{emu_state, emu_faults, chance_of, counts_of, drawn_by};
    ghost use Rattle.mq_blocks.specs.Drive.{Owns, IsHome, AreFrom, staged_end, after_stage, after_flush};
    ghost use Rattle.mq_blocks.specs.Drive.{after_ring, after_store_head, after_store_base};
    ghost use Rattle.mq_nvme.specs.Entry.{tx_of, lba_of};
    ghost use Rattle.mq_drive.specs.Emulated.{StepCounts, HomeCounts, StepTickets, HomeTickets};
    ghost use Rattle.mq_drive.specs.Seats.{Happens, IsRefused};
    ghost use Rattle.mq_drive.specs.Steps.{StepGives, HomeGives, OffCause, IsOwnWrite};

    ghost state = { emu_state };

    ghost faults = { emu_faults };

    fn role(&self) -> Role {
        self.device.role()
    }

    fn doorbell(&self) -> u64 {
        self.device.doorbell()
    }

    fn head(&self) -> u64 {
        self.device.head()
    }

    fn base(&self) -> u64 {
        self.device.base()
    }

    fn read_slot(&self, slot: u32) -> Entry {
        self.device.read_slot(slot)
    }

    fn read_block(&self, lba: Lba, into: &mut Block) {
        self.device.read_block(lba, into);
    }

    fn stage(&mut self, at: u64, entry: Entry, block: Block) -> Result<(), Off>
        requires queue { IsSome (emu_state self.old).queue }
        requires next { at ≡ staged_end (emu_state self.old) }
        requires below { at < 2 ^ 63 }
        requires order { (emu_state self.old).stored_head ≤ (emu_state self.old).doorbell }
        requires room { at - (emu_state self.old).head < usable_depth }
        requires write { IsOwnWrite (emu_state self.old) at entry }
        ensures ok { OnOk result (emu_state self.new ≡ after_stage (emu_state self.old) entry (tx_of entry)
            (lba_of entry) block) }
        ensures off { OnErr result (emu_state self.new ≡ emu_state self.old) }
        ensures cause { OffCause result (emu_faults self.old) (emu_faults self.new) }
        ensures chance { chance_of self.new ≡ chance_of self.old }
        ensures counts { counts_of self.new ≡ counts_of self.old }
        ensures happens { OnOk result (Happens (emu_state self.old).fuse.limit (drawn_by self.old)
            (drawn_by self.new)) }
        ensures refused { OnErr result (IsRefused (emu_state self.old).fuse.limit (drawn_by self.old)
            (drawn_by self.new)) }
    {
        self.device.stage(at, entry, block)
    }

    fn flush(&mut self) -> Result<(), Off>
        ensures ok { OnOk result (emu_state self.new ≡ after_flush (emu_state self.old)) }
        ensures off { OnErr result (emu_state self.new ≡ emu_state self.old) }
        ensures cause { OffCause result (emu_faults self.old) (emu_faults self.new) }
        ensures chance { chance_of self.new ≡ chance_of self.old }
        ensures counts { counts_of self.new ≡ counts_of self.old }
        ensures happens { OnOk result (Happens (emu_state self.old).fuse.limit (drawn_by self.old)
            (drawn_by self.new)) }
        ensures refused { OnErr result (IsRefused (emu_state self.old).fuse.limit (drawn_by self.old)
            (drawn_by self.new)) }
    {
        self.device.flush()
    }

    fn ring(&mut self, tail: u64) -> Result<(), Off>
        requires tail { tail ≡ staged_end (emu_state self.old) }
        requires flushed { (emu_state self.old).flushed_end ≡ tail }
        ensures ok { OnOk result (emu_state self.new ≡ after_ring (emu_state self.old)) }
        ensures off { OnErr result (emu_state self.new ≡ emu_state self.old) }
        ensures cause { OffCause result (emu_faults self.old) (emu_faults self.new) }
        ensures chance { chance_of self.new ≡ chance_of self.old }
        ensures counts { counts_of self.new ≡ counts_of self.old }
        ensures happens { OnOk result (Happens (emu_state self.old).fuse.limit (drawn_by self.old)
            (drawn_by self.new)) }
        ensures refused { OnErr result (IsRefused (emu_state self.old).fuse.limit (drawn_by self.old)
            (drawn_by self.new)) }
    {
        self.device.ring(tail)
    }

    fn step(&mut self) -> Result<Step, Off>
        ensures gives { StepGives (emu_state self.old) (emu_faults self.old) result (emu_state self.new)
            (emu_faults self.new) }
        ensures chosen { StepChooses (emu_state self.old) (emu_faults self.old) (chance_of self.old) result
            (emu_state self.new) (emu_faults self.new) (chance_of self.new) }
        ensures counts { StepCounts (emu_state self.old) (counts_of self.old) result (counts_of self.new) }
        ensures tickets { StepTickets (emu_state self.old).fuse.limit (drawn_by self.old) result
            (drawn_by self.new) }
    {
        self.device.step()
    }

    fn store_head(&mut self, head: u64) -> Result<(), Off>
        requires low { (emu_state self.old).head ≤ head }
        requires high { head ≤ (emu_state self.old).doorbell }
        requires posted { AreFrom head (emu_state self.old).posted }
        requires failed { AreFrom head (emu_state self.old).failed }
        ensures ok { OnOk result (emu_state self.new ≡ after_store_head (emu_state self.old) head) }
        ensures off { OnErr result (emu_state self.new ≡ emu_state self.old) }
        ensures cause { OffCause result (emu_faults self.old) (emu_faults self.new) }
        ensures chance { chance_of self.new ≡ chance_of self.old }
        ensures counts { counts_of self.new ≡ counts_of self.old }
        ensures happens { OnOk result (Happens (emu_state self.old).fuse.limit (drawn_by self.old)
            (drawn_by self.new)) }
        ensures refused { OnErr result (IsRefused (emu_state self.old).fuse.limit (drawn_by self.old)
            (drawn_by self.new)) }
    {
        self.device.store_head(head)
    }

    fn store_base(&mut self, base: u64) -> Result<(), Off>
        requires root { IsNone (emu_state self.old).queue }
        requires low { (emu_state self.old).base ≤ base }
        ensures ok { OnOk result (emu_state self.new ≡ after_store_base (emu_state self.old) base) }
        ensures off { OnErr result (emu_state self.new ≡ emu_state self.old) }
        ensures cause { OffCause result (emu_faults self.old) (emu_faults self.new) }
        ensures chance { chance_of self.new ≡ chance_of self.old }
        ensures counts { counts_of self.new ≡ counts_of self.old }
        ensures happens { OnOk result (Happens (emu_state self.old).fuse.limit (drawn_by self.old)
            (drawn_by self.new)) }
        ensures refused { OnErr result (IsRefused (emu_state self.old).fuse.limit (drawn_by self.old)
            (drawn_by self.new)) }
    {
        self.device.store_base(base)
    }

    fn write_home(&mut self, lba: Lba, block: Block) -> Result<HomeStep, Off>
        requires { IsHome (emu_state self.old) lba }
        ensures gives { HomeGives (emu_state self.old) (emu_faults self.old) lba block result
            (emu_state self.new) (emu_faults self.new) }
        ensures chosen { HomeChooses (emu_state self.old) (chance_of self.old) lba block result
            (emu_state self.new) (chance_of self.new) }
        ensures counts { HomeCounts (emu_state self.old) (counts_of self.old) result (counts_of self.new) }
        ensures tickets { HomeTickets (emu_state self.old).fuse.limit (drawn_by self.old) result
            (drawn_by self.new) }
    {
        self.device.write_home(lba, block)
    }
}
