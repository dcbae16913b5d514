// Home writes.
ghost use Rattle.std.specs.Prelude.{◌↔◌, IfOk, IsTrue};
ghost use Rattle.mq_ledger.specs.Plain.{plain};
ghost use Rattle.mq_core.specs.Answers.{Answers};
ghost use Rattle.mq_loose.specs.Guards.{MayWriteHome};
ghost use Rattle.mq_loose.specs.Runs.{IsAllowed, happens, WriteHome};

use super::LooseCore;
use mq_blocks::{BlockNo, OutOfMemory};
use mq_core::{CoreRefusal, write_home};
use std::alloc::Global;

impl LooseCore {
    /// Whether a home write of a block may begin.
    fn may_write_home(&self, alloc: Global, block: BlockNo) -> Result<bool, OutOfMemory>
        ensures { IfOk result (λ may. IsTrue may ↔ MayWriteHome self.now block) }
    {
        if block.0 >= self.ledger.geometry().homes() {
            return Ok(false);
        }
        let change = self.ledger.last_change(block);
        if change.0 <= self.root.stored_base() {
            return Ok(false);
        }
        if !self.ledger.is_logged_last(block) {
            return Ok(false);
        }
        self.is_settled(alloc, change)
    }

    /// A home write of the block's content begins.
    pub fn write_home(&mut self, alloc: Global, block: BlockNo) -> Result<(), CoreRefusal>
        ensures { Answers (IsAllowed plain (WriteHome block) self.old)
            (happens plain (WriteHome block) self.old) self.old self.new result }
    {
        if !self.may_write_home(alloc, block)? {
            return Err(CoreRefusal::NotAllowed { index: 0 });
        }
        write_home(
            alloc,
            &self.ledger,
            &mut self.ports,
            &mut self.root,
            &mut self.writing,
            block,
        )?;
        Ok(())
    }
}
