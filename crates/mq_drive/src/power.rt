// How long the power of an emulated port lasts.
ghost use Rattle.std.specs.Prelude.{◌≡◌, ◌<◌, ◌≤◌, ◌^◌, ℕ, [], OnOk, OnErr, Some, None};
ghost use Rattle.mq_blocks.specs.Drive.{counted};
ghost use Rattle.mq_drive.specs.Fuse.{above, below};
ghost use Rattle.mq_drive.specs.Seats.{name_of, fuse_of, tickets_of, Happens, IsRefused};

use crate::store::bump;
use crate::{Fuse, FuseSeat, Off};

/// The power of a port, by its seat of a fuse. It counts the events that happened and those that
/// did not; each count stays at 2^64 - 1 once there.
#[derive(Drop)]
pub struct Power<'f> {
    fuse: &'f Fuse,
    seat: FuseSeat,
    happened: u64,
    offs: u64,
    ghost one: { fuse_of seat ≡ name_of fuse.now },
    ghost unlimited: { seat.limit ≡ None → offs ≡ 0 },
    ghost counted: { (l : ℕ) → seat.limit ≡ Some l → happened ≡ below l (tickets_of seat) },
    ghost off: { (l : ℕ) → seat.limit ≡ Some l → 0 < offs → 0 < above l (tickets_of seat) },
    ghost on: { (l : ℕ) → seat.limit ≡ Some l → 0 < above l (tickets_of seat) → 0 < offs },
}

impl<'f> Power<'f> {
    pub fn new(fuse: &'f Fuse, seat: FuseSeat) -> Power<'f>
        requires fuse { fuse_of seat ≡ name_of fuse.now }
        requires fresh { tickets_of seat ≡ [] }
        ensures seat { result.seat ≡ seat }
        ensures happened { result.happened ≡ 0 }
        ensures offs { result.offs ≡ 0 }
    {
        Power {
            fuse,
            seat,
            happened: 0,
            offs: 0,
        }
    }

    /// One event, which happens if the power is on.
    pub fn event(&mut self) -> Result<(), Off>
        ensures fuse { fuse_of self.new.seat ≡ fuse_of self.old.seat }
        ensures happens { OnOk result ((self.new.happened ≡ counted self.old.happened 1)
            × (self.new.offs ≡ self.old.offs)) }
        ensures refused { OnErr result ((self.new.happened ≡ self.old.happened)
            × (self.new.offs ≡ counted self.old.offs 1)) }
        ensures ticket { OnOk result (Happens (fuse_of self.old.seat).limit (tickets_of self.old.seat)
            (tickets_of self.new.seat)) }
        ensures over { OnErr result (IsRefused (fuse_of self.old.seat).limit (tickets_of self.old.seat)
            (tickets_of self.new.seat)) }
        ensures range { self.old.offs < 2 ^ 64 }
        ensures first { OnOk result (self.old.offs ≡ 0) }
    {
        if let Err(off) = self.seat.event(self.fuse) {
            self.offs = bump(self.offs);
            return Err(off);
        }
        self.happened = bump(self.happened);
        Ok(())
    }

    /// The number of events that happened.
    pub fn happened(&self) -> u64
        ensures { result ≡ self.now.happened }
    {
        self.happened
    }

    /// The seat of the fuse.
    pub fn into_seat(self) -> FuseSeat
        ensures { result ≡ self.entry.seat }
    {
        self.seat
    }
}
