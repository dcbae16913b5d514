// How a run ended.
ghost use Rattle.std.specs.Prelude.{◌≡◌, IfOk};
ghost use Rattle.mq_run_laws.specs.Endings.{finishes};
ghost use Rattle.mq_run_laws.specs.Runs.{IsLast, IsPowerOff, IsStop, StoppedByPower};
ghost use Rattle.mq_run_laws.specs.declared.options.Ending.TheVariants as ends;
ghost use Rattle.mq_run.specs.Ending.{IsAskedFor};

use crate::options::Ending;
use mq_blocks::{OutOfMemory, TxNo};
use mq_journal::CheckpointRefusal;
use mq_queue_side::Cause;
use mq_report::Last;

// What is reported of a checkpoint at the end that the drive refused while its power was on.
fn stop_of(cause: Cause) -> Last
    requires { IsPowerOff cause → ⊥ }
    ensures { IsStop cause result }
{
    match cause {
        Cause::Off => unreachable!(),
        Cause::Failed { tx, .. } | Cause::Stopped { tx, .. } => Last::StoppedTx(tx),
        Cause::FailedHome { block, .. } => Last::StoppedBlock(block),
    }
}

/// How a run ended: by how it had to end, by the number of events that were counted, and by the result of the
/// checkpoint at the end. If a checkpoint had to be made, the power stayed on.
pub fn last_of(
    ending: Ending,
    events: u64,
    finished: Option<Result<TxNo, CheckpointRefusal>>,
) -> Result<Last, OutOfMemory>
    requires asked { IsAskedFor (finishes ending) finished }
    requires power { ending ≡ ends.Checkpoint → StoppedByPower finished → ⊥ }
    ensures { IfOk result (IsLast ending events finished) }
{
    if !ending.finishes() {
        return Ok(Last::Cut(events));
    }
    match finished {
        Some(Ok(number)) => Ok(Last::Clean(number)),
        Some(Err(CheckpointRefusal::Drive(cause))) => Ok(stop_of(cause)),
        Some(Err(CheckpointRefusal::OutOfMemory)) => Err(OutOfMemory),
        None => unreachable!(),
    }
}
