// A feeder.
ghost use Rattle.std.specs.Prelude.{◌≡◌, ◌+◌, ◌<◌, ◌↔◌, [], IfErr, IfSome, IsNone, OnErr, OnOk, slice_get, Some};
ghost use Rattle.mq_replica.specs.Feeding.{after_heard, after_push, last_of};

use crate::update::Update;
use mq_blocks::{OutOfMemory, TxNo};
use std::alloc::Global;
use std::collections::VecDeque;
use std::marker::Model;

/// The updates of a history that no replica has acknowledged yet.
#[derive(Drop)]
pub struct Feeder {
    acknowledged: TxNo,
    // those above it, the oldest first
    waiting: VecDeque<Update>,
}

impl Model for Feeder {
    ghost use Rattle.mq_replica.specs.Feeding.{FeederState, IsFeeder};

    ghost Value = { FeederState };

    ghost view = { λ f. record { acknowledged = f.acknowledged; waiting = f.waiting.items } };

    ghost invariant = { λ f. IsFeeder record { acknowledged = f.acknowledged; waiting = f.waiting.items } };
}

impl Feeder {
    /// A feeder of the updates after a base. It takes no memory before an update is pushed.
    pub fn new(alloc: Global, base: TxNo) -> Feeder
        ensures { result ≡ record { acknowledged = base; waiting = [] } }
    {
        Feeder {
            acknowledged: base,
            waiting: VecDeque::new(alloc),
        }
    }

    /// Adds the next update of the history.
    pub fn push(&mut self, update: Update) -> Result<(), (Update, OutOfMemory)>
        requires next { update.number ≡ last_of self.old + 1 }
        ensures ok { OnOk result (self.new ≡ after_push update self.old) }
        ensures err { OnErr result (self.new ≡ self.old) }
        ensures back { IfErr result (λ e. e.0 ≡ update) }
    {
        match self.waiting.push_back(update) {
            Ok(()) => Ok(()),
            Err(full) => Err((full.value, OutOfMemory)),
        }
    }

    /// The update that the replica needs next, or none where all that were pushed are acknowledged.
    pub fn next(&self) -> Option<&Update>
        ensures none { IsNone result ↔ (self.now.waiting ≡ []) }
        ensures first { IfSome result (λ u. slice_get self.now.waiting 0 ≡ Some u.now) }
        ensures number { IfSome result (λ u. u.now.number ≡ self.now.acknowledged + 1) }
    {
        self.waiting.front()
    }

    /// The greatest number that is acknowledged.
    pub fn acknowledged(&self) -> TxNo
        ensures { result ≡ self.now.acknowledged }
    {
        self.acknowledged
    }

    /// Notes that a replica has reached a number. The acknowledged number never falls, and is never above
    /// the last that was pushed.
    pub fn heard(&mut self, reached: TxNo)
        ensures { self.new ≡ after_heard reached self.old }
    {
        while self.acknowledged < reached {
            match self.waiting.pop_front() {
                Some(update) => self.acknowledged = update.number,
                None => return,
            }
        }
    }
}
