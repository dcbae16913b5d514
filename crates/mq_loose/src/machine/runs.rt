// One event, and runs of events.
ghost use Rattle.std.specs.Prelude.{◌≡◌, IfOk, IfErr};
ghost use Rattle.mq_ledger.specs.Plain.{plain};
ghost use Rattle.mq_core.specs.Answers.{Answers};
ghost use Rattle.mq_loose.specs.Runs.{IsAllowed, happens, run, AreAllowed, IsAlwaysSafe, IsRefusal};

use super::LooseCore;
use crate::LooseEvent;
use mq_core::{
    CoreRefusal, complete, fail_command, flush, flush_head, home_done, ring, store_base, store_head,
};
use std::alloc::Global;

impl LooseCore {
    /// Makes an event happen, if it is allowed.
    pub fn apply(&mut self, alloc: Global, event: LooseEvent) -> Result<(), CoreRefusal>
        ensures { Answers (IsAllowed plain event self.old)
            (happens plain event self.old) self.old self.new result }
    {
        match event {
            LooseEvent::Draw(tx) => self.draw(alloc, tx),
            LooseEvent::Stage { queue } => self.stage(alloc, queue),
            LooseEvent::Flush { queue } => flush(&mut self.ledger, &mut self.ports, queue),
            LooseEvent::Ring { queue } => ring(&self.ledger, &mut self.ports, queue),
            LooseEvent::Complete { queue, count } => {
                complete(&self.ledger, &mut self.ports, queue, count)
            }
            LooseEvent::FailCommand { queue, count } => {
                fail_command(&self.ledger, &mut self.ports, queue, count)
            }
            LooseEvent::StoreHead { queue, head } => {
                store_head(&self.ledger, &mut self.ports, queue, head)
            }
            LooseEvent::FlushHead { queue } => flush_head(&mut self.ledger, &mut self.ports, queue),
            LooseEvent::Acknowledge { number } => self.acknowledge(alloc, number),
            LooseEvent::WriteHome { block } => self.write_home(alloc, block),
            LooseEvent::HomeDone { block } => home_done(
                alloc,
                &self.ledger,
                &mut self.ports,
                &mut self.root,
                &mut self.writing,
                block,
            ),
            LooseEvent::StoreBase { base } => {
                store_base(&self.ledger, &self.ports, &mut self.root, base)
            }
            LooseEvent::FlushBase => {
                self.root.flush();
                Ok(())
            }
        }
    }

    /// Makes events happen one after another, up to the first that is not allowed. The machine is
    /// safe before, after and between them. A refusal names the index of its event, and drops the
    /// machine.
    pub fn run(
        alloc: Global,
        start: LooseCore,
        events: Vec<LooseEvent>,
    ) -> Result<LooseCore, CoreRefusal>
        ensures done { IfOk result (λ c. c ≡ run plain events.items start) }
        ensures allowed { IfOk result (λ c. AreAllowed plain events.items start) }
        ensures safe { IfOk result (λ c. IsAlwaysSafe plain events.items start) }
        ensures refused { IfErr result (λ e. IsRefusal plain events.items start e) }
    {
        start.is_safe();
        let mut core = start;
        let mut index = 0;
        for event in events {
            if let Err(refusal) = core.apply(alloc, event) {
                return Err(refusal.at(index));
            }
            index += 1;
        }
        Ok(core)
    }
}
