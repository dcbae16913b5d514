// How a run ended.
ghost use Rattle.std.specs.Prelude.{◌≡◌, IfOk, None};
ghost use Rattle.mq_kv_run.specs.Endings.{finishes};
ghost use Rattle.mq_kv_run.specs.Runs.{IsLast, IsStopped, WasAsked};

use mq_blocks::{OutOfMemory, TxNo};
use mq_journal::CheckpointRefusal;
use mq_kv_text::LastLine;

/// The last line: by the cut that was asked for, by the number of events that were counted, and by the result of the
/// checkpoint at the end. Where no cut was asked for, the power stayed on, and the drive refused nothing.
pub fn last_line(
    cut: Option<u64>,
    events: u64,
    finished: Option<Result<TxNo, CheckpointRefusal>>,
) -> Result<LastLine, OutOfMemory>
    requires asked { WasAsked (finishes cut) finished }
    requires power { cut ≡ None → IsStopped finished → ⊥ }
    ensures { IfOk result (IsLast cut events finished) }
{
    if cut.is_some() {
        return Ok(LastLine::Cut(events));
    }
    match finished {
        Some(Ok(number)) => Ok(LastLine::Clean(number)),
        Some(Err(CheckpointRefusal::OutOfMemory)) => Err(OutOfMemory),
        Some(Err(CheckpointRefusal::Drive(_))) => unreachable!(),
        None => unreachable!(),
    }
}
