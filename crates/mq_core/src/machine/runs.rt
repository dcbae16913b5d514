// One event, and runs of events.
ghost use Rattle.std.specs.Prelude.{◌≡◌, IfOk, IfErr};
ghost use Rattle.mq_ledger.specs.Plain.{plain};
ghost use Rattle.mq_core.specs.Answers.{Answers};
ghost use Rattle.mq_core.specs.Machine.{IsAllowed, happens, Stage, run, AreAllowed, IsAlwaysLawful, IsRefusal};

use super::Core;
use super::bases::store_base;
use super::homes::home_done;
use super::rings::{
    complete, fail_command, flush, flush_head, next_count, ring, stage, store_head,
};
use crate::{CoreRefusal, Event};
use mq_blocks::QueueNo;
use std::alloc::Global;

impl Core {
    /// The next entry of the queue's drawn transaction is staged.
    fn stage(&mut self, alloc: Global, queue: QueueNo) -> Result<(), CoreRefusal>
        ensures { Answers (IsAllowed plain (Stage queue) self.old)
            (happens plain (Stage queue) self.old) self.old self.new result }
    {
        let Some(count) = next_count(&self.ledger, &self.ports, queue) else {
            return Err(CoreRefusal::NotAllowed { index: 0 });
        };
        let staged = self.ledger.entry(alloc, queue, count)?;
        stage(&self.ledger, &mut self.ports, queue, staged)?;
        Ok(())
    }

    /// Makes an event happen, if it is allowed.
    pub fn apply(&mut self, alloc: Global, event: Event) -> Result<(), CoreRefusal>
        ensures { Answers (IsAllowed plain event self.old)
            (happens plain event self.old) self.old self.new result }
    {
        match event {
            Event::Draw(tx) => self.draw(tx),
            Event::Stage { queue } => self.stage(alloc, queue),
            Event::Flush { queue } => flush(&mut self.ledger, &mut self.ports, queue),
            Event::Ring { queue } => ring(&self.ledger, &mut self.ports, queue),
            Event::Complete { queue, count } => {
                complete(&self.ledger, &mut self.ports, queue, count)
            }
            Event::FailCommand { queue, count } => {
                fail_command(&self.ledger, &mut self.ports, queue, count)
            }
            Event::StoreHead { queue, head } => {
                store_head(&self.ledger, &mut self.ports, queue, head)
            }
            Event::FlushHead { queue } => flush_head(&mut self.ledger, &mut self.ports, queue),
            Event::Clear { queue, low } => self.clear(queue, low),
            Event::Acknowledge { number } => self.acknowledge(number),
            Event::WriteHome { block } => self.write_home(alloc, block),
            Event::HomeDone { block } => home_done(
                alloc,
                &self.ledger,
                &mut self.ports,
                &mut self.root,
                &mut self.writing,
                block,
            ),
            Event::StoreBase { base } => {
                store_base(&self.ledger, &self.ports, &mut self.root, base)
            }
            Event::FlushBase => {
                self.root.flush();
                Ok(())
            }
        }
    }

    /// Makes events happen one after another, up to the first that is not allowed. The machine is
    /// lawful before, after and between them. A refusal names the index of its event, and drops the
    /// machine.
    pub fn run(alloc: Global, start: Core, events: Vec<Event>) -> Result<Core, CoreRefusal>
        ensures done { IfOk result (λ c. c ≡ run plain events.items start) }
        ensures allowed { IfOk result (λ c. AreAllowed plain events.items start) }
        ensures lawful { IfOk result (λ c. IsAlwaysLawful plain events.items start) }
        ensures refused { IfErr result (λ e. IsRefusal plain events.items start e) }
    {
        start.is_lawful();
        let mut core = start;
        let mut index = 0;
        for event in events {
            if let Err(refusal) = core.apply(alloc, event) {
                return Err(refusal.at(index));
            }
            index += 1;
        }
        Ok(core)
    }
}
