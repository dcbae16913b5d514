// One line of a text, committed as a transaction through a queue.
ghost use Rattle.std.specs.Prelude.{◌≡◌, ◌<◌, ◌≤◌, ◌+◌, ◌^◌, ℕ, [], length, OnOk, OnErr, slice_index_or};
ghost use Rattle.mq_blocks.specs.Limits.{depth, usable_depth};
ghost use Rattle.mq_blocks.specs.Drive.{IsQuiescent, index_of, staged_end};
ghost use Rattle.mq_pmr.specs.Runs.{OwnsAll};
ghost use Rattle.mq_command_blocks.specs.Causes.{HasCause};
ghost use Rattle.mq_command_blocks.specs.Cuts.{HasEnded, IsCut};
ghost use Rattle.mq_command_blocks.specs.Runs.{AreApart, AreDistinct, after_all, after_line};

use mq_blocks::{Block, Lba, TxNo};
use mq_drive::{Off, Port};
use mq_pmr::{PmrQueue, Took};

/// Why a transaction was not done.
#[derive(Clone, Copy, PartialEq, Eq)]
pub enum Refusal {
    Off,
    /// A command of the transaction ended with an error.
    Failed { status: u16 },
}

impl From<Off> for Refusal {
    ghost use Rattle.mq_command_blocks.specs.declared.line.Refusal.TheVariants as refusal;

    ghost from_gives = { λ _ e. e ≡ refusal.Off };

    fn from(_: Off) -> Self {
        Refusal::Off
    }
}

/// Executes posted commands until none is left or one ends with an error.
pub fn complete_all<P: Port>(queue: &mut PmrQueue<P>) -> Result<(), Refusal>
    requires apart { AreApart (index_of (P.state queue.old.port)) (P.state queue.old.port).posted }
    ensures ok { OnOk result (P.state queue.new.port ≡ after_all (P.state queue.old.port)) }
    ensures ended { OnErr result ((n : ℕ) × HasEnded (P.state queue.old.port) (P.state queue.new.port) n) }
    ensures cause { HasCause result (P.faults queue.old.port) (P.faults queue.new.port) }
    ensures done { queue.new.done ≡ queue.old.done }
    ensures rung { queue.new.rung.items ≡ queue.old.rung.items }
{
    'completion: loop {
        match queue.complete_one()? {
            Took::Idle => return Ok(()),
            Took::One { .. } => {}
            Took::Bad { status, .. } => return Err(Refusal::Failed { status }),
        }
    }
}

/// Commits one transaction: its writes are staged, flushed, rung and executed, and the head is
/// stored past them and flushed.
#[tactic(auto, using(crate::proofs::RunsLines::apart_posted), unfolding(crate::specs::Runs::after_line))]
pub fn commit_line<P: Port>(
    queue: &mut PmrQueue<P>,
    tx: TxNo,
    items: Vec<(Lba, Block)>,
) -> Result<(), Refusal>
    requires tx { 1 ≤ tx }
    requires some { 0 < length items.items }
    requires end { staged_end (P.state queue.old.port) + length items.items ≤ 2 ^ 63 }
    requires room { length items.items ≤ usable_depth }
    requires quiet { IsQuiescent (P.state queue.old.port) }
    requires done { (P.state queue.old.port).head ≡ (P.state queue.old.port).doorbell }
    requires settled { (k : ℕ)
        → k < depth
        → slice_index_or (P.state queue.old.port).flushed k [] ≡ slice_index_or
        (P.state queue.old.port).staged k [] }
    requires own { OwnsAll (P.state queue.old.port) items.items }
    requires distinct { AreDistinct (index_of (P.state queue.old.port)) items.items }
    requires rung { queue.old.rung.items ≡ [] }
    ensures ok { OnOk result (P.state queue.new.port ≡ after_line (P.state queue.old.port) tx items.items) }
    ensures rung { OnOk result (queue.new.rung.items ≡ []) }
    ensures cut { OnErr result ((events : ℕ)
        × IsCut (P.state queue.old.port) (P.state queue.new.port) tx items.items events) }
    ensures cause { HasCause result (P.faults queue.old.port) (P.faults queue.new.port) }
{
    let mut items = items;
    queue.stage_all(tx, &mut items)?;
    queue.ring_once()?;
    complete_all(queue)?;
    queue.advance_head()?;
    Ok(())
}
