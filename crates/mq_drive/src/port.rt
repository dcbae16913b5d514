// A port of the drive.
ghost use Rattle.std.specs.Prelude.{◌≡◌, ◌≢◌, ◌⊎◌, ◌<◌, ◌≤◌, ◌+◌, ◌-◌, ◌%◌, ◌^◌, ℕ, List, [], ◌∷◌, length, OnOk, OnErr, IsSome, IsNone, slice_index_or};
ghost use Rattle.mq_blocks.specs.Limits.{usable_depth};
ghost use Rattle.mq_blocks.specs.Blocks.{block_at};
ghost use Rattle.mq_blocks.specs.Drive.{PortState, Owns, IsHome, IsFlushed, IsCertain, AreFrom, index_of, staged_end, after_stage};
ghost use Rattle.mq_blocks.specs.Drive.{after_flush, after_ring, after_store_head, after_store_base};
ghost use Rattle.mq_nvme.specs.Entry.{tx_of, lba_of};
ghost use Rattle.mq_drive.specs.Roles.{role_of};
ghost use Rattle.mq_drive.specs.Steps.{PortFault, StepGives, HomeGives, OffCause, IsOwnWrite};

use crate::Role;
use mq_blocks::{Block, Lba};
use mq_nvme::{Completion, Entry};

/// The power is off: the event did not happen. A home write may have begun.
#[derive(Clone, Copy, PartialEq, Eq)]
pub struct Off;

/// What one step did.
#[derive(Clone, Copy, PartialEq, Eq)]
pub enum Step {
    /// Nothing is posted.
    Idle,
    /// A posted command has ended, with the status in its completion.
    Done(Completion),
}

/// How a home write ended.
#[derive(Clone, Copy, PartialEq, Eq)]
pub enum HomeStep {
    Done,
    Error { status: u16 },
}

/// A part of the drive, as one thread drives it. Each changing call is one event, and a home write
/// is two; reads and idle steps are no events. No call takes memory.
pub trait Port {
    ghost state: { Self → PortState };

    // The faults so far, in no order: each is there as often as it came.
    ghost faults: { Self → List PortFault };

    fn role(&self) -> Role
        ensures { result ≡ role_of (state self.now).queue };

    fn doorbell(&self) -> u64
        ensures { result ≡ (state self.now).doorbell };

    /// The head. If one was stored and not flushed, this is the flushed or the stored one.
    fn head(&self) -> u64
        ensures { (result ≡ (state self.now).head) ⊎ (result ≡ (state self.now).stored_head) };

    /// The base word, with the same uncertainty as `head`.
    fn base(&self) -> u64
        ensures { (result ≡ (state self.now).base) ⊎ (result ≡ (state self.now).stored_base) };

    /// The entry in a slot, or any bytes if it is not flushed.
    fn read_slot(&self, slot: u32) -> Entry
        requires { slot < length (state self.now).flushed }
        ensures { IsFlushed (state self.now) slot → result ≡ slice_index_or (state self.now).flushed slot [] };

    /// Reads a block, or any bytes if it is uncertain.
    fn read_block(&self, lba: Lba, into: &mut Block)
        requires { Owns (state self.now) lba }
        ensures { IsCertain (state self.now) (index_of (state self.now) lba)
            → into.new ≡ block_at (state self.now).blocks (index_of (state self.now) lba) };

    /// Puts a write into the next slot of a queue's ring.
    fn stage(&mut self, at: u64, entry: Entry, block: Block) -> Result<(), Off>
        requires queue { IsSome (state self.old).queue }
        requires next { at ≡ staged_end (state self.old) }
        requires below { at < 2 ^ 63 }
        requires order { (state self.old).stored_head ≤ (state self.old).doorbell }
        requires room { at - (state self.old).head < usable_depth }
        requires write { IsOwnWrite (state self.old) at entry }
        ensures ok { OnOk result (state self.new ≡ after_stage (state self.old) entry (tx_of entry)
            (lba_of entry) block) }
        ensures off { OnErr result (state self.new ≡ state self.old) }
        ensures cause { OffCause result (faults self.old) (faults self.new) };

    /// Makes staged slots and stored words certain.
    fn flush(&mut self) -> Result<(), Off>
        ensures ok { OnOk result (state self.new ≡ after_flush (state self.old)) }
        ensures off { OnErr result (state self.new ≡ state self.old) }
        ensures cause { OffCause result (faults self.old) (faults self.new) };

    /// Writes the doorbell, which posts what was staged. It is visible and persistent at once.
    fn ring(&mut self, tail: u64) -> Result<(), Off>
        requires tail { tail ≡ staged_end (state self.old) }
        requires flushed { (state self.old).flushed_end ≡ tail }
        ensures ok { OnOk result (state self.new ≡ after_ring (state self.old)) }
        ensures off { OnErr result (state self.new ≡ state self.old) }
        ensures cause { OffCause result (faults self.old) (faults self.new) };

    /// Executes one posted command.
    fn step(&mut self) -> Result<Step, Off>
        ensures { StepGives (state self.old) (faults self.old) result (state self.new) (faults self.new) };

    /// Stores the head. No command below it may still be posted or failed.
    fn store_head(&mut self, head: u64) -> Result<(), Off>
        requires low { (state self.old).head ≤ head }
        requires high { head ≤ (state self.old).doorbell }
        requires posted { AreFrom head (state self.old).posted }
        requires failed { AreFrom head (state self.old).failed }
        ensures ok { OnOk result (state self.new ≡ after_store_head (state self.old) head) }
        ensures off { OnErr result (state self.new ≡ state self.old) }
        ensures cause { OffCause result (faults self.old) (faults self.new) };

    /// Stores the base word of the root's port.
    fn store_base(&mut self, base: u64) -> Result<(), Off>
        requires root { IsNone (state self.old).queue }
        requires low { (state self.old).base ≤ base }
        ensures ok { OnOk result (state self.new ≡ after_store_base (state self.old) base) }
        ensures off { OnErr result (state self.new ≡ state self.old) }
        ensures cause { OffCause result (faults self.old) (faults self.new) };

    /// Writes a home block of this port by an ordinary command through a queue in host memory: one
    /// event where it begins, one where it ends.
    fn write_home(&mut self, lba: Lba, block: Block) -> Result<HomeStep, Off>
        requires { IsHome (state self.old) lba }
        ensures { HomeGives (state self.old) (faults self.old) lba block result (state self.new) (faults self.new) };
}

/// The ports of a drive, the queues' in order.
#[derive(Drop)]
pub struct Ports<P: Port> {
    pub queues: Vec<P>,
    pub root: P,
}
