// The numbers that an image of the machine's drive may reach.
ghost use Rattle.std.specs.Prelude.{◌≡◌, ◌<◌, ◌≤◌, ◌+◌, ℕ, length};
ghost use Rattle.mq_blocks.specs.Journal.{number_limit};
ghost use Rattle.mq_ledger.specs.History.{AreNumbered, part_of};
ghost use Rattle.mq_ledger.specs.Plain.{plain};
ghost use Rattle.mq_ledger.specs.Records.{IsClear};
ghost use Rattle.mq_ledger.specs.State.{front_of};
ghost use Rattle.mq_core.specs.Reach.{ReachBetween, IsReached, is_stored, stored_front};
ghost use Rattle.mq_core.specs.Settled.{AreOnQueues};

use super::Core;
use crate::PlainPort;
use mq_blocks::{QueueNo, TxNo};
use mq_ledger::Ledger;

/// The greatest number, up to this one, such that no transaction of the queue up to it ends after the head.
fn lowered(ledger: &Ledger, queue: QueueNo, head: u64, number: u64) -> u64
    requires queue { queue < ledger.now.geometry.queues }
    requires numbers { AreNumbered ledger.now.base ledger.now.history }
    requires limit { number ≤ number_limit }
    ensures high { result ≤ number }
    ensures clear { IsClear ledger.now queue head (result + 1) }
    ensures greatest { (n : ℕ) → n ≤ number → IsClear ledger.now queue head (n + 1) → n ≤ result }
{
    let mut lowest = number;
    while !ledger.is_clear(queue, head, lowest + 1) {
        lowest -= 1;
    }
    lowest
}

/// The greatest number such that the stored heads are past all up to it.
fn stored_to(ledger: &Ledger, ports: &[PlainPort]) -> u64
    requires ports { length ports.now ≡ ledger.now.geometry.queues }
    requires numbers { AreNumbered ledger.now.base ledger.now.history }
    requires queues { AreOnQueues ledger.now }
    ensures { result ≡ ledger.now.base
        + length (part_of (is_stored ledger.now.starts ports.now) ledger.now.history) }
{
    let mut number = ledger.last().0;
    for q in 0..ledger.geometry().queues() {
        let head = ports[q as usize].stored_head();
        number = lowered(ledger, QueueNo(q), head, number);
    }
    number
}

impl Core {
    /// The least and the greatest number that an image of the machine's drive reaches.
    pub fn reach(&self) -> (TxNo, TxNo)
        ensures least { result.0 ≡ front_of self.now }
        ensures greatest { result.1 ≡ stored_front self.now }
        ensures between { ReachBetween plain self.now result.0 result.1 }
        ensures least_is_reached { IsReached plain self.now result.0 }
        ensures greatest_is_reached { IsReached plain self.now result.1 }
    {
        let greatest = stored_to(&self.ledger, &self.ports);
        (self.ledger.front(), TxNo(greatest))
    }
}
