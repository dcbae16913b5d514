// Events on numbers: a transaction is drawn, numbers are acknowledged.
ghost use Rattle.std.specs.Prelude.{◌≡◌, ◌<◌, ◌↔◌, [], IfOk, IsTrue, OnOk};
ghost use Rattle.mq_blocks.specs.Descriptor.{AreRising};
ghost use Rattle.mq_blocks.specs.Geometry.{homes_of};
ghost use Rattle.mq_ledger.specs.History.{last};
ghost use Rattle.mq_ledger.specs.KnownJournal.{IsTx};
ghost use Rattle.mq_ledger.specs.Plain.{plain};
ghost use Rattle.mq_core.specs.Answers.{Answers};
ghost use Rattle.mq_core.specs.Events.{draw};
ghost use Rattle.mq_loose_order.specs.Dependence.{depends_on, with_last};
ghost use Rattle.mq_loose.specs.Guards.{IsDrawable, MayDrawLoose};
ghost use Rattle.mq_loose.specs.Rows.{row_for, with_lasts};
ghost use Rattle.mq_loose.specs.Runs.{IsAllowed, happens, Draw, Acknowledge};

use super::LooseCore;
use super::rows::{LooseRow, logged_blocks, newest_of, row_of};
use crate::LooseTx;
use mq_blocks::{BlockNo, OutOfMemory, TxNo};
use mq_core::{CoreRefusal, Parts, drop_changed};
use mq_ledger::{Blocks, Ledger, Tx, Writes};
use mq_loose_order::Numbers;
use std::alloc::Global;

/// The most blocks that a transaction names.
const NAMED_LIMIT: usize = 256;

/// Puts the last number that changed a block among rising ones, if it is above the base.
fn add_change(
    ledger: &Ledger,
    base: u64,
    numbers: &mut Numbers,
    block: BlockNo,
) -> Result<(), OutOfMemory>
    requires block { block < homes_of ledger.now.geometry }
    requires base { base ≡ ledger.now.base }
    ensures { OnOk result (numbers.new ≡ with_last ledger.now.base
        (last ledger.now.base ledger.now.history block) numbers.old) }
{
    let change = ledger.last_change(block);
    if change.0 > base {
        numbers.add(change)?;
    }
    Ok(())
}

/// The same for each of these blocks.
fn add_changes(
    ledger: &Ledger,
    base: u64,
    numbers: &mut Numbers,
    blocks: &[BlockNo],
) -> Result<(), OutOfMemory>
    requires blocks { AreRising 0 (homes_of ledger.now.geometry) blocks.now }
    requires base { base ≡ ledger.now.base }
    ensures { OnOk result (numbers.new ≡ with_lasts ledger.now.base blocks.now ledger.now.history numbers.old) }
{
    for at in (0..blocks.len()).rev() {
        add_change(ledger, base, numbers, blocks[at])?;
    }
    Ok(())
}

impl LooseCore {
    /// Whether a transaction is the next, names few blocks and fits into ring and area.
    fn is_drawable(&self, tx: &Tx) -> bool
        ensures { IsTrue result ↔ IsDrawable plain self.now tx.now }
    {
        if !self.ledger.may_draw(tx, TxNo(self.root.base())) {
            return false;
        }
        let logged = tx.logged.as_slice();
        let freed = tx.freed.as_slice();
        if logged.len() > NAMED_LIMIT || freed.len() > NAMED_LIMIT - logged.len() {
            return false;
        }
        let now = Parts {
            ledger: &self.ledger,
            ports: &self.ports,
            root: &self.root,
        };
        now.has_room(tx)
    }

    /// The numbers on which a transaction depends.
    fn depends_on(&self, alloc: Global, tx: &Tx) -> Result<Numbers, OutOfMemory>
        requires { IsTx self.now.geometry tx.now }
        ensures { IfOk result (λ numbers. numbers ≡ depends_on self.now.base tx.now self.now.history) }
    {
        let base = self.base();
        let logged = logged_blocks(alloc, tx.logged.as_slice())?;
        let mut numbers = Numbers::new(alloc);
        add_changes(&self.ledger, base, &mut numbers, tx.freed.as_slice())?;
        add_changes(&self.ledger, base, &mut numbers, &logged)?;
        Ok(numbers)
    }

    /// Whether a transaction that depends on these numbers may be drawn.
    fn may_draw(&self, alloc: Global, tx: &Tx, deps: &Numbers) -> Result<bool, OutOfMemory>
        ensures { IfOk result (λ may. IsTrue may ↔ MayDrawLoose plain self.now tx.now deps.now) }
    {
        if !self.is_drawable(tx) {
            return Ok(false);
        }
        let exact = self.depends_on(alloc, tx)?;
        Ok(exact.is_same(deps))
    }

    /// The row of a transaction that may be drawn.
    fn next_row(&self, alloc: Global, tx: &Tx, deps: Numbers) -> Result<LooseRow, OutOfMemory>
        requires may { MayDrawLoose plain self.now tx.now deps }
        requires direct { tx.now.direct ≡ [] }
        requires revoked { tx.now.revoked ≡ [] }
        ensures { IfOk result (λ r. r ≡ row_for self.now.base self.now.starts tx.now self.now.history) }
    {
        let end = self.ledger.end(tx.queue);
        let place = self.ledger.next_place(tx.queue);
        row_of(alloc, tx, deps, end, place, newest_of(&self.rows, tx.queue))
    }

    /// A transaction that depends on these numbers takes the next number.
    fn draw_tx(&mut self, alloc: Global, tx: Tx, deps: Numbers) -> Result<(), CoreRefusal>
        requires direct { tx.direct ≡ [] }
        requires revoked { tx.revoked ≡ [] }
        ensures { Answers (MayDrawLoose plain self.old tx deps) (draw tx self.old) self.old self.new result }
    {
        if !self.may_draw(alloc, &tx, &deps)? {
            return Err(CoreRefusal::NotAllowed { index: 0 });
        }
        let number = tx.number;
        let row = self.next_row(alloc, &tx, deps)?;
        self.rows.reserve(1)?;
        self.ledger.push(tx)?;
        self.rows.push_reserved(row);
        drop_changed(&self.ledger, &mut self.writing, number);
        Ok(())
    }

    /// A transaction takes the next number.
    pub fn draw(&mut self, alloc: Global, tx: LooseTx) -> Result<(), CoreRefusal>
        ensures { Answers (IsAllowed plain (Draw tx) self.old)
            (happens plain (Draw tx) self.old) self.old self.new result }
    {
        let LooseTx {
            number,
            queue,
            logged,
            freed,
            deps,
        } = tx;
        let tx = Tx {
            number,
            queue,
            logged,
            direct: Writes(Vec::new(alloc)),
            revoked: Blocks(Vec::new(alloc)),
            freed,
        };
        self.draw_tx(alloc, tx, deps)
    }

    /// A number and all on which it depends are done, and it is acknowledged to the caller.
    pub fn acknowledge(&mut self, alloc: Global, number: TxNo) -> Result<(), CoreRefusal>
        ensures { Answers (IsAllowed plain (Acknowledge number) self.old)
            (happens plain (Acknowledge number) self.old) self.old self.new result }
    {
        if !self.is_settled(alloc, number)? {
            return Err(CoreRefusal::NotAllowed { index: 0 });
        }
        self.acknowledged.push(number)?;
        Ok(())
    }
}
