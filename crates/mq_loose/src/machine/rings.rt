// Entries with the descriptors of the loose order.
ghost use Rattle.std.specs.Prelude.{◌≡◌, ◌<◌, ◌≤◌, IfOk, length};
ghost use Rattle.mq_ledger.specs.Items.{end_of, item_at};
ghost use Rattle.mq_ledger.specs.State.{from_at};
ghost use Rattle.mq_loose_order.specs.Form.{loose_bytes, loose_limit};
ghost use Rattle.mq_loose.specs.Guards.{entries_in};
ghost use Rattle.mq_loose.specs.Staged.{IsStagedIn};
ghost use Rattle.mq_ledger.specs.Plain.{plain};
ghost use Rattle.mq_core.specs.Answers.{Answers};
ghost use Rattle.mq_core.specs.Events.{us_of};
ghost use Rattle.mq_loose.specs.Runs.{IsAllowed, happens, Stage};

use super::LooseCore;
use super::rows::LooseRow;
use mq_blocks::{Block, OutOfMemory, QueueNo};
use mq_core::{CoreRefusal, next_count, stage};
use mq_ledger::{Content, Staged};
use mq_loose_order::write_loose_descriptor;
use std::alloc::Global;

/// The block of a descriptor.
fn descriptor_block(alloc: Global, row: &LooseRow) -> Result<Content, OutOfMemory>
    requires logged { length row.now.descriptor.logged ≤ loose_limit }
    requires deps { length row.now.deps ≤ loose_limit }
    ensures { IfOk result (λ c. c ≡ loose_bytes row.now.descriptor row.now.deps) }
{
    let mut block = Block::zeroed(alloc)?;
    write_loose_descriptor(&row.descriptor, row.deps.as_slice(), &mut block);
    Ok(Content(Vec::from_slice(alloc, block.bytes())?))
}

impl LooseCore {
    /// The entry of a count of a queue, with its write. The last of a transaction writes its descriptor, which
    /// lists on what it depends.
    fn entry(&self, alloc: Global, queue: QueueNo, count: u64) -> Result<Staged, OutOfMemory>
        requires queue { queue < self.now.geometry.queues }
        requires low { from_at self.now.starts queue ≤ count }
        requires high { count < end_of (from_at self.now.starts queue) (us_of self.now queue) }
        ensures { IfOk result (IsStagedIn (entries_in plain self.now).form self.now.geometry queue
            (item_at (from_at self.now.starts queue) (us_of self.now queue) count)) }
    {
        let Staged {
            entry: said,
            tx,
            lba,
            block: plain_block,
        } = self.ledger.entry(alloc, queue, count)?;
        if !said.commit {
            return Ok(Staged {
                entry: said,
                tx,
                lba,
                block: plain_block,
            });
        }
        let block = descriptor_block(alloc, self.row(tx))?;
        Ok(Staged {
            entry: said,
            tx,
            lba,
            block,
        })
    }

    /// The next entry of the queue's drawn transaction is staged.
    pub fn stage(&mut self, alloc: Global, queue: QueueNo) -> Result<(), CoreRefusal>
        ensures { Answers (IsAllowed plain (Stage queue) self.old)
            (happens plain (Stage queue) self.old) self.old self.new result }
    {
        let Some(count) = next_count(&self.ledger, &self.ports, queue) else {
            return Err(CoreRefusal::NotAllowed { index: 0 });
        };
        let staged = self.entry(alloc, queue, count)?;
        stage(&self.ledger, &mut self.ports, queue, staged)?;
        Ok(())
    }
}
