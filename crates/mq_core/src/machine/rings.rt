// Events on the ring of a queue.
ghost use Rattle.std.specs.Prelude.{◌≡◌, ◌<◌, ◌≤◌, OnErr, OnOk, IfNone, IfSome, slice_set};
ghost use Rattle.mq_blocks.specs.Drive.{after_flush, after_ring, after_stage, after_store_head, staged_end};
ghost use Rattle.mq_ledger.specs.Items.{end_of};
ghost use Rattle.mq_ledger.specs.State.{from_at, port_at};
ghost use Rattle.mq_ledger.specs.History.{of_queue};
ghost use Rattle.mq_core.specs.Events.{MayEnd, MayFlush, MayRing, MayStage, MayStoreHead, complete_side, fail_side};
ghost use Rattle.mq_core.specs.Parts.{Always, AreSides, QueueAnswers};
ghost use Rattle.mq_core.specs.Settled.{settled};

use super::front::settle_all;
use crate::{CoreRefusal, PlainPort};
use mq_blocks::{OutOfMemory, QueueNo};
use mq_ledger::{Ledger, Staged};

/// The count of the next entry of the queue that may be staged.
pub fn next_count(ledger: &Ledger, ports: &[PlainPort], queue: QueueNo) -> Option<u64>
    requires { AreSides ledger.now ports.now }
    ensures none { IfNone result ((queue < ledger.now.geometry.queues)
        × MayStage (from_at ledger.now.starts queue) (of_queue queue ledger.now.history)
        (port_at ports.now queue)
        → ⊥) }
    ensures some { IfSome result (λ count. (queue < ledger.now.geometry.queues)
        × (count ≡ staged_end (port_at ports.now queue))
        × (from_at ledger.now.starts queue ≤ count)
        × (count < end_of (from_at ledger.now.starts queue) (of_queue queue ledger.now.history))) }
{
    let at = queue.0 as usize;
    if at >= ports.len() {
        return None;
    }
    let count = ports[at].staged_end();
    if count >= ledger.end(queue) {
        return None;
    }
    Some(count)
}

/// The next entry of a queue is staged.
pub fn stage(
    ledger: &Ledger,
    ports: &mut Vec<PlainPort>,
    queue: QueueNo,
    staged: Staged,
) -> Result<(), OutOfMemory>
    requires queue { queue < ledger.now.geometry.queues }
    requires sides { AreSides ledger.now ports.old.items }
    ensures ok { OnOk result (ports.new.items ≡ slice_set ports.old.items queue
        (after_stage (port_at ports.old.items queue) staged.entry staged.tx staged.lba staged.block)) }
    ensures refused { OnErr result (ports.new.items ≡ ports.old.items) }
{
    ports[queue.0 as usize].stage(staged.entry, staged.tx, staged.lba, staged.block)?;
    Ok(())
}

/// What is staged on the queue, and its stored head, become certain.
fn flush_port(ledger: &mut Ledger, ports: &mut Vec<PlainPort>, queue: QueueNo)
    requires queue { queue < ledger.old.geometry.queues }
    requires sides { AreSides ledger.old ports.old.items }
    ensures ports { ports.new.items ≡ slice_set ports.old.items queue
        (after_flush (port_at ports.old.items queue)) }
    ensures ledger { ledger.new ≡ settled ports.new.items ledger.old }
{
    ports[queue.0 as usize].flush();
    settle_all(ledger, ports);
}

/// What is staged on the queue becomes certain.
pub fn flush(
    ledger: &mut Ledger,
    ports: &mut Vec<PlainPort>,
    queue: QueueNo,
) -> Result<(), CoreRefusal>
    requires { AreSides ledger.old ports.old.items }
    ensures ports { QueueAnswers ledger.old queue
        (MayFlush (from_at ledger.old.starts queue) (of_queue queue ledger.old.history)) after_flush
        ports.old.items ports.new.items result }
    ensures ledger { ledger.new ≡ settled ports.new.items ledger.old }
{
    let at = queue.0 as usize;
    if at >= ports.len() {
        return Err(CoreRefusal::NotAllowed { index: 0 });
    }
    let end = ledger.end(queue);
    if !ports[at].is_staged_to(end) {
        return Err(CoreRefusal::NotAllowed { index: 0 });
    }
    flush_port(ledger, ports, queue);
    Ok(())
}

/// What is staged and flushed on the queue is posted.
pub fn ring(ledger: &Ledger, ports: &mut Vec<PlainPort>, queue: QueueNo) -> Result<(), CoreRefusal>
    requires { AreSides ledger.now ports.old.items }
    ensures { QueueAnswers ledger.now queue
        (MayRing (from_at ledger.now.starts queue) (of_queue queue ledger.now.history)) after_ring
        ports.old.items ports.new.items result }
{
    let at = queue.0 as usize;
    if at >= ports.len() {
        return Err(CoreRefusal::NotAllowed { index: 0 });
    }
    let end = ledger.end(queue);
    ports[at].ring(end)
}

/// The posted command of this count ends with success.
pub fn complete(
    ledger: &Ledger,
    ports: &mut Vec<PlainPort>,
    queue: QueueNo,
    count: u64,
) -> Result<(), CoreRefusal>
    requires { AreSides ledger.now ports.old.items }
    ensures { QueueAnswers ledger.now queue (MayEnd count) (complete_side count) ports.old.items
        ports.new.items result }
{
    let at = queue.0 as usize;
    if at >= ports.len() {
        return Err(CoreRefusal::NotAllowed { index: 0 });
    }
    ports[at].complete(count)
}

/// The posted command of this count ends with an error.
pub fn fail_command(
    ledger: &Ledger,
    ports: &mut Vec<PlainPort>,
    queue: QueueNo,
    count: u64,
) -> Result<(), CoreRefusal>
    requires { AreSides ledger.now ports.old.items }
    ensures { QueueAnswers ledger.now queue (MayEnd count) (fail_side count) ports.old.items
        ports.new.items result }
{
    let at = queue.0 as usize;
    if at >= ports.len() {
        return Err(CoreRefusal::NotAllowed { index: 0 });
    }
    ports[at].fail(count)
}

/// The queue's head is stored.
pub fn store_head(
    ledger: &Ledger,
    ports: &mut Vec<PlainPort>,
    queue: QueueNo,
    head: u64,
) -> Result<(), CoreRefusal>
    requires { AreSides ledger.now ports.old.items }
    ensures { QueueAnswers ledger.now queue
        (λ p. MayStoreHead (from_at ledger.now.starts queue) (of_queue queue ledger.now.history) p head)
        (λ p. after_store_head p head) ports.old.items ports.new.items result }
{
    let at = queue.0 as usize;
    if at >= ports.len() {
        return Err(CoreRefusal::NotAllowed { index: 0 });
    }
    if !ledger.is_end(queue, head) {
        return Err(CoreRefusal::NotAllowed { index: 0 });
    }
    ports[at].try_store_head(head)
}

/// The queue's stored head becomes certain.
pub fn flush_head(
    ledger: &mut Ledger,
    ports: &mut Vec<PlainPort>,
    queue: QueueNo,
) -> Result<(), CoreRefusal>
    requires { AreSides ledger.old ports.old.items }
    ensures ports { QueueAnswers ledger.old queue Always after_flush ports.old.items
        ports.new.items result }
    ensures ledger { ledger.new ≡ settled ports.new.items ledger.old }
{
    if queue.0 as usize >= ports.len() {
        return Err(CoreRefusal::NotAllowed { index: 0 });
    }
    flush_port(ledger, ports, queue);
    Ok(())
}
