// Draining a queue.
ghost use Rattle.std.specs.Prelude.{◌≡◌, OnOk};
ghost use Rattle.mq_queue_side.specs.Counts.{KeepsCount};
ghost use Rattle.mq_queue_side.specs.Side.{side_state};
ghost use Rattle.mq_queue_side.specs.Staying.{Stays};
ghost use Rattle.mq_queue_side.specs.Told.{KeepsTold};
ghost use Rattle.mq_queue_side.specs.Drained.{kept_with, Completes, Advances, answer_of, Drains, DrainCause, IsWhole, HasEnded, MovesHead, DrainMakes};

use crate::{Cause, QueueSide, Why};
use mq_blocks::TxNo;
use mq_drive::{Off, Port};
use mq_pmr::Took;

// What is kept once a command of this transaction has failed.
fn keep(kept: Option<(TxNo, Why)>, tx: TxNo, status: u16) -> Option<(TxNo, Why)>
    ensures { result ≡ kept_with kept tx status }
{
    match kept {
        None => Some((tx, Why::Status(status))),
        Some((least, why)) => match why {
            Why::Off => Some((tx, Why::Status(status))),
            Why::Status(first) => {
                if least.0 <= tx.0 {
                    Some((least, Why::Status(first)))
                } else {
                    Some((tx, Why::Status(status)))
                }
            }
        },
    }
}

// What a drain answers, where a command failed in it or none did.
fn answer(failed: bool, done: TxNo, kept: Option<(TxNo, Why)>) -> Result<TxNo, Cause>
    ensures { result ≡ answer_of failed done kept }
{
    match kept {
        None => Ok(done),
        Some((tx, why)) => match why {
            Why::Status(status) if failed => Err(Cause::Failed { tx, status }),
            _ => Err(Cause::Stopped { tx, why }),
        },
    }
}

impl<P: Port, E> QueueSide<P, E> {
    // Completes until nothing is posted. Returns whether a command failed.
    fn complete(&mut self) -> Result<bool, Off>
        ensures completes { Completes (side_state P.state P.faults self.old) result
            (side_state P.state P.faults self.new) }
        ensures ended { HasEnded (side_state P.state P.faults self.old)
            (side_state P.state P.faults self.new) }
        ensures stays { Stays (side_state P.state P.faults self.old)
            (side_state P.state P.faults self.new) }
        ensures counts { KeepsCount (side_state P.state P.faults self.old)
            (side_state P.state P.faults self.new) }
        ensures told { KeepsTold (side_state P.state P.faults self.old)
            (side_state P.state P.faults self.new) }
        ensures stored { self.new.stored ≡ self.old.stored }
    {
        let mut failed = false;
        'completion: loop {
            match self.pmr.complete_one()? {
                Took::Idle => return Ok(failed),
                Took::One { .. } => {}
                Took::Bad { tx, status } => {
                    self.kept = keep(self.kept, tx, status);
                    failed = true;
                }
            }
        }
    }

    // Stores and flushes the head past each leading transaction whose commands all succeeded, and notes
    // the last of them as done.
    fn advance(&mut self) -> Result<(), Off>
        ensures advances { Advances (side_state P.state P.faults self.old) result
            (side_state P.state P.faults self.new) }
        ensures moves { MovesHead (side_state P.state P.faults self.old) result
            (side_state P.state P.faults self.new) }
        ensures stays { Stays (side_state P.state P.faults self.old)
            (side_state P.state P.faults self.new) }
        ensures counts { KeepsCount (side_state P.state P.faults self.old)
            (side_state P.state P.faults self.new) }
        ensures told { KeepsTold (side_state P.state P.faults self.old)
            (side_state P.state P.faults self.new) }
        ensures stored { self.new.stored ≡ self.old.stored }
    {
        let done = self.pmr.advance_head()?;
        self.done = done;
        Ok(())
    }

    /// Completes until nothing is posted, and then stores and flushes the head past every transaction
    /// before the first that failed. Returns the number of the last that is done. After `Off` the call
    /// may be made again.
    pub fn drain(&mut self) -> Result<TxNo, Cause>
        ensures drains { Drains (side_state P.state P.faults self.old) result
            (side_state P.state P.faults self.new) }
        ensures makes { DrainMakes (side_state P.state P.faults self.old) result
            (side_state P.state P.faults self.new) }
        ensures cause { DrainCause result (P.faults self.old.pmr.port) (P.faults self.new.pmr.port) }
        ensures whole { OnOk result (IsWhole (side_state P.state P.faults self.old)
            (side_state P.state P.faults self.new)) }
        ensures stays { Stays (side_state P.state P.faults self.old)
            (side_state P.state P.faults self.new) }
        ensures counts { KeepsCount (side_state P.state P.faults self.old)
            (side_state P.state P.faults self.new) }
        ensures told { KeepsTold (side_state P.state P.faults self.old)
            (side_state P.state P.faults self.new) }
        ensures stored { self.new.stored ≡ self.old.stored }
    {
        let failed = self.complete()?;
        self.advance()?;
        answer(failed, self.done, self.kept)
    }
}
