// Which numbers are settled: done, as all on which they depend are, step by step.
ghost use Rattle.std.specs.Prelude.{◌≡◌, ◌<◌, ◌≤◌, ◌+◌, ◌&&◌, ℕ, List, IfOk, length, reverse, true};
ghost use Rattle.mq_blocks.specs.Journal.{is_among};
ghost use Rattle.mq_ledger.specs.History.{AreNumbered};
ghost use Rattle.mq_ledger.specs.State.{is_done};
ghost use Rattle.mq_ledger.specs.declared.tx.Tx.{Tx as Record};
ghost use Rattle.mq_loose_order.specs.Dependence.{all_in, closure};
ghost use Rattle.mq_loose.specs.Guards.{settled};
ghost use Rattle.mq_loose.specs.Rows.{AreRows, flag_of, is_past, loose_rows};

use super::LooseCore;
use super::rows::LooseRow;
use mq_blocks::{OutOfMemory, TxNo};
use mq_core::PlainPort;
use std::alloc::Global;

/// Whether the flushed head of a transaction's queue is past it.
fn is_row_done(row: &LooseRow, ports: &[PlainPort]) -> bool
    requires { row.now.queue < length ports.now }
    ensures { result ≡ is_past row.now ports.now }
{
    let port = &ports[row.queue.0 as usize];
    row.end <= port.head()
}

/// Whether all of these numbers above the base have their flag, of flags by rising number.
pub fn are_flagged(flags: &[bool], base: u64, numbers: &[TxNo]) -> bool
    requires { (n : ℕ) → is_among n numbers.now ≡ true → (base < n) × (n ≤ base + length flags.now) }
    ensures { result ≡ all_in (flag_of base flags.now) numbers.now }
{
    for number in numbers {
        let at = number.0 - base - 1;
        if !flags[at as usize] {
            return false;
        }
    }
    true
}

/// Whether a transaction is settled, where these are the flags of all before it.
fn row_flag(row: &LooseRow, ports: &[PlainPort], flags: &[bool], base: u64) -> bool
    requires queue { row.now.queue < length ports.now }
    requires deps { (n : ℕ) → is_among n row.now.deps ≡ true → (base < n) × (n ≤ base + length flags.now) }
    ensures { result ≡ (is_past row.now ports.now && all_in (flag_of base flags.now) row.now.deps) }
{
    is_row_done(row, ports) && are_flagged(flags, base, row.deps.as_slice())
}

/// Of each transaction above the base, by rising number, whether it is settled. Each is looked at once, with those
/// on which it depends.
fn settled_flags(
    alloc: Global,
    rows: &[LooseRow],
    ports: &[PlainPort],
    base: u64,
) -> Result<Vec<bool>, OutOfMemory>
    requires { AreRows base rows.now (length ports.now) }
    ensures { IfOk result (λ flags. (starts : List ℕ) (h : List Record)
        → AreNumbered base h
        → rows.now ≡ reverse (loose_rows base starts h)
        → (length flags.items ≡ length h)
        × ((n : ℕ)
        → base < n
        → n ≤ base + length h
        → flag_of base flags.items n ≡ closure (is_done starts ports.now) base h n)) }
{
    let mut flags = Vec::new(alloc);
    for row in rows {
        let flag = row_flag(row, ports, &flags, base);
        flags.push(flag)?;
    }
    Ok(flags)
}

impl LooseCore {
    /// Whether a number and all on which it depends, step by step, are done. All numbers up to the base at
    /// the start are.
    pub fn is_settled(&self, alloc: Global, number: TxNo) -> Result<bool, OutOfMemory>
        ensures { IfOk result (λ is. is ≡ settled self.now number) }
    {
        let base = self.base();
        if number.0 <= base {
            return Ok(true);
        }
        if number.0 > self.ledger.last().0 {
            return Ok(false);
        }
        let flags = settled_flags(alloc, &self.rows, &self.ports, base)?;
        Ok(flags[(number.0 - base - 1) as usize])
    }
}
