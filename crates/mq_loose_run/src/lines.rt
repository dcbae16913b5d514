// The lines of a text, run on queues.
ghost use Rattle.std.specs.Prelude.{◌≡◌, ◌⊎◌, ◌<◌, ◌^◌, ℕ, length};
ghost use Rattle.mq_loose_queues.specs.Commits.{IsRequest, MayCommit};
ghost use Rattle.mq_loose_text.specs.declared.line.LooseLine.TheVariants as line_of;
ghost use Rattle.mq_loose_run.specs.Lines.{queues_state};
ghost use Rattle.mq_loose_run.specs.Steps.{CommitsTo, DrainsTo, IsQuiet, MayRun, Runs};
ghost use Rattle.mq_loose_run.specs.Texts.{MayRunAll, RunsAll};
ghost use Rattle.mq_loose_run.specs.declared.running.Stop.TheVariants as stop;

use crate::items::items_of;
use crate::running::{Running, Stop};
use mq_block_text::BlockLine;
use mq_blocks::{Block, BlockNo, QueueNo};
use mq_drive::EmuPort;
use mq_loose_queues::{LooseQueues, LooseRefusal};
use mq_loose_text::{LooseLine, LooseText};
use mq_queue_side::Cause;
use std::alloc::Global;

// A commit that may be made stops for memory, or for its power.
fn stop_of(refusal: LooseRefusal) -> Stop
    requires { (refusal ≡ LooseRefusal.OutOfMemory) ⊎ ((tx : ℕ) × (refusal ≡ LooseRefusal.Off tx)) }
    ensures off { result ≡ stop.Off → (tx : ℕ) × (refusal ≡ LooseRefusal.Off tx) }
{
    match refusal {
        LooseRefusal::OutOfMemory => Stop::OutOfMemory,
        LooseRefusal::Off { .. } => Stop::Off,
        LooseRefusal::Stopped { .. } => unreachable!(),
        LooseRefusal::TooLarge { .. } => unreachable!(),
        LooseRefusal::Area => unreachable!(),
        LooseRefusal::Ring => unreachable!(),
    }
}

// Commits what may be committed.
fn commit(
    alloc: Global,
    queues: &mut LooseQueues<EmuPort<'_>>,
    queue: QueueNo,
    writes: &[(BlockNo, Block)],
    frees: &[BlockNo],
) -> Result<(), Stop>
    requires request { IsRequest (queues_state queues.old) queue writes.now frees.now }
    requires few { length (queues_state queues.old).rows < 2 ^ 62 }
    requires may { MayCommit (queues_state queues.old) queue (length writes.now) (length frees.now) }
    ensures { CommitsTo (queues_state queues.old) queue writes.now frees.now result (queues_state queues.new) }
{
    match queues.commit(alloc, queue, writes, frees) {
        Ok(_) => Ok(()),
        Err(refusal) => Err(stop_of(refusal)),
    }
}

// Runs a commit's line.
fn commit_line(
    alloc: Global,
    running: &mut Running<'_>,
    queue: QueueNo,
    line: &BlockLine,
) -> Result<(), Stop>
    requires { MayRun (line_of.Commit queue line.now) running.old }
    ensures { Runs (line_of.Commit queue line.now) running.old result running.new }
{
    let items = items_of(alloc, line, &running.marks)?;
    commit(
        alloc,
        &mut running.queues,
        queue,
        &items.writes,
        &items.frees,
    )?;
    running.marks = items.marks;
    running.waits[queue.0 as usize] = true;
    Ok(())
}

// A drain of a queue where no command fails stops for its power.
fn only_off(cause: Cause) -> Stop
    requires { cause ≡ Cause.Off }
    ensures { result ≡ stop.Off }
{
    match cause {
        Cause::Off => Stop::Off,
        Cause::Failed { .. } => unreachable!(),
        Cause::FailedHome { .. } => unreachable!(),
        Cause::Stopped { .. } => unreachable!(),
    }
}

// Drains a queue where no command fails.
fn drain(queues: &mut LooseQueues<EmuPort<'_>>, queue: QueueNo) -> Result<(), Stop>
    requires inside { queue < length (queues_state queues.old).sides }
    requires quiet { IsQuiet (queues_state queues.old) queue }
    ensures { DrainsTo (queues_state queues.old) queue result (queues_state queues.new) }
{
    match queues.drain(queue) {
        Ok(_) => Ok(()),
        Err(cause) => Err(only_off(cause)),
    }
}

// Runs a drain's line. Where nothing waits, there is nothing to do.
fn done_line(running: &mut Running<'_>, queue: QueueNo) -> Result<(), Stop>
    requires { MayRun (line_of.Done queue) running.old }
    ensures { Runs (line_of.Done queue) running.old result running.new }
{
    let at = queue.0 as usize;
    if !running.waits[at] {
        return Ok(());
    }
    drain(&mut running.queues, queue)?;
    running.waits[at] = false;
    Ok(())
}

// Runs a line.
fn run_line(alloc: Global, running: &mut Running<'_>, line: &LooseLine) -> Result<(), Stop>
    requires { MayRun line.now running.old }
    ensures { Runs line.now running.old result running.new }
{
    match line {
        LooseLine::Commit(queue, items) => commit_line(alloc, running, *queue, items),
        LooseLine::Done(queue) => done_line(running, *queue),
    }
}

/// Runs the lines of a text, until the power goes off or to the end.
pub fn run_lines(alloc: Global, running: &mut Running<'_>, text: &LooseText) -> Result<(), Stop>
    requires { MayRunAll text.now running.old }
    ensures { RunsAll text.now running.old result running.new }
{
    for line in &text.0 {
        run_line(alloc, running, line)?;
    }
    Ok(())
}
