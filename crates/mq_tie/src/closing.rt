// The end of a run: one history out of what the sides of all queues store.
ghost use Rattle.std.specs.Prelude.{◌≡◌, [], IfOk, IfErr, length, map};
ghost use Rattle.std.specs.List.{All};
ghost use Rattle.mq_journal.specs.Machine.{journal};
ghost use Rattle.mq_turns.specs.AtDesk.{AtDesk, chairs_of, start_of, view};
ghost use Rattle.mq_turns.specs.Chairs.{DeskEnded};
ghost use Rattle.mq_tie.specs.Runs.{IsRun, CanEnd, ports_of};
ghost use Rattle.mq_tie.specs.Closed.{HasRun, StaysOpen};

use crate::ended::Ended;
use crate::order::{count_stored, order_of};
use mq_blocks::{OutOfMemory, TxNo};
use mq_drive::Port;
use mq_journal::{Groups, JournalMachine};
use mq_queue_side::QueueSide;
use mq_turns::{Chair, Desk, Machine, Parts};
use std::alloc::Global;

// The last number of each queue of which its side knows that it is done.
fn done_of<P: Port, E>(alloc: Global, sides: &[QueueSide<P, E>]) -> Result<Vec<TxNo>, OutOfMemory>
    ensures { IfOk result (λ r. r.items ≡ map (λ s. s.done) sides.now) }
{
    let mut done = Vec::with_capacity(alloc, sides.len())?;
    for side in sides {
        done.push_reserved(side.done());
    }
    Ok(done)
}

/// Ends a run over what its desk had when it ended. All memory is taken before anything moves, so that a
/// refusal gives everything back as it was.
pub fn close<P: Port + Drop, G: Groups>(
    alloc: Global,
    parts: Parts<JournalMachine<P, G>>,
) -> Result<Ended<P, G::Entry>, (Parts<JournalMachine<P, G>>, OutOfMemory)>
    requires ended { CanEnd P.state P.faults G.group parts.pages.items parts.sides.items
        parts.root parts.next parts.base }
    ensures values { IfOk result (λ r. (r.pages ≡ parts.pages)
        × (r.root ≡ parts.root)
        × (r.next ≡ parts.next)
        × (r.base ≡ parts.base)) }
    ensures ports { IfOk result (λ r. ports_of r ≡ map (λ s. s.pmr.port) parts.sides.items) }
    ensures done { IfOk result (λ r. r.done.items ≡ map (λ s. s.done) parts.sides.items) }
    ensures run { IfOk result (λ r. (o : _) (views : _)
        (end : DeskEnded (journal P.state P.faults G.group) o views parts.pages.items parts.sides.items parts.root
        parts.next parts.base)
        → IsRun P.state P.faults G.group end.known views r) }
    ensures err { IfErr result (λ e. e.0 ≡ parts) }
{
    let count = count_stored(&parts.sides);
    let base = parts.next.0 - count as u64;
    let Ok(order) = order_of(alloc, &parts.sides, count, base) else {
        return Err((parts, OutOfMemory));
    };
    let Ok(done) = done_of(alloc, &parts.sides) else {
        return Err((parts, OutOfMemory));
    };
    let Ok(queues) = Vec::with_capacity(alloc, parts.sides.len()) else {
        return Err((parts, OutOfMemory));
    };
    let Parts {
        pages,
        sides,
        root,
        next,
        base,
    } = parts;
    Ok(Ended {
        pages,
        root,
        done,
        next,
        base,
        sides,
        order,
        queues,
    })
}

/// A desk that could not be closed because memory ran out.
#[derive(Drop)]
pub enum Unclosed<M: Machine> {
    /// The desk is as it was, with its chairs.
    Desk(Desk<M>, Vec<Chair<M>>),
    /// The desk has ended, and this is what it had. `close` may be tried again.
    Parts(Parts<M>),
}

/// Ends a desk, all of whose chairs hold nothing, and the run over what it had.
pub fn close_desk<P: Port + Drop, G: Groups>(
    alloc: Global,
    desk: Desk<JournalMachine<P, G>>,
    chairs: Vec<Chair<JournalMachine<P, G>>>,
) -> Result<Ended<P, G::Entry>, (Unclosed<JournalMachine<P, G>>, OutOfMemory)>
    requires theirs { All (λ ch. AtDesk desk ch × ((view ch).held ≡ [])) chairs.items }
    requires all { length chairs.items ≡ chairs_of desk }
    ensures run { IfOk result (λ r. HasRun P.state P.faults G.group (start_of desk)
        (map (λ ch. view ch) chairs.items) r) }
    ensures err { IfErr result (λ e. StaysOpen (journal P.state P.faults G.group) desk chairs.items e.0) }
{
    match desk.into_parts(alloc, chairs) {
        Ok(parts) => match close(alloc, parts) {
            Ok(ended) => Ok(ended),
            Err((parts, full)) => Err((Unclosed::Parts(parts), full)),
        },
        Err((desk, chairs, full)) => Err((Unclosed::Desk(desk, chairs), full)),
    }
}
