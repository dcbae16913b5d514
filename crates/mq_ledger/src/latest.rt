// What the newest of some transactions did to each home block.
ghost use Rattle.std.specs.Prelude.{◌≡◌, ◌<◌, ◌≤◌, ◌+◌, ◌-◌, ◌++◌, ◌^◌, ℕ, List, Option, None, Some, length, map, reverse, slice_index_or, slice_set};
ghost use Rattle.std.specs.Prelude.{MatchOption};
ghost use Rattle.mq_blocks.specs.Descriptor.{AreRising};
ghost use Rattle.mq_ledger.specs.History.{blocks_of, writes, AreNumbered, IsAt};
ghost use Rattle.mq_ledger.specs.Items.{write_at};
ghost use Rattle.mq_ledger.specs.Tables.{Stands, put_mark, after_freed, after_writes, after_tx};
ghost use Rattle.mq_ledger.specs.declared.tx.Tx.{Tx as Record};

use crate::{Content, Tx};
use mq_blocks::BlockNo;

/// Where the content of a home block stands.
#[derive(Clone, Copy)]
pub enum Place {
    /// Nowhere: the block is free.
    Free,
    /// Where it stood at the start.
    Start,
    /// In the transaction of this number, after `at` of its writes, of which the logged ones come
    /// first.
    Written { number: u64, at: usize },
}

#[derive(Clone, Copy)]
pub struct Latest {
    /// The number that changed it last, else the base.
    pub change: u64,
    /// The number that logged it last, else the base.
    pub logged: u64,
    pub place: Place,
}

/// Takes in one more change of a block, which is a copy or not.
fn put(table: &mut [Latest], number: u64, copied: bool, place: Place, block: BlockNo)
    requires { block < length table.old }
    ensures { table.new ≡ put_mark number copied place block table.old }
{
    let at = block.0 as usize;
    let logged = if copied { number } else { table[at].logged };
    table[at] = Latest {
        change: number,
        logged,
        place,
    };
}

fn mark_freed(table: &mut [Latest], number: u64, blocks: &[BlockNo])
    requires { AreRising 0 (length table.old) blocks.now }
    ensures { table.new ≡ after_freed number blocks.now table.old }
{
    for block in blocks {
        put(table, number, false, Place::Free, *block);
    }
}

/// Takes in the writes of a transaction that stand after `before` others of it.
fn mark_writes(
    table: &mut [Latest],
    number: u64,
    copied: bool,
    before: usize,
    writes: &[(BlockNo, Content)],
)
    requires rising { AreRising 0 (length table.old) (blocks_of writes.now) }
    requires few { before + length writes.now < 2 ^ 64 }
    ensures { table.new ≡ after_writes number copied before writes.now table.old }
{
    for (i, write) in writes.iter().enumerate() {
        let place = Place::Written {
            number,
            at: before + i,
        };
        put(table, number, copied, place, write.0);
    }
}

/// Takes one more transaction into a table of all home blocks.
pub fn mark(table: &mut Vec<Latest>, tx: &Tx)
    requires freed { AreRising 0 (length table.old.items) tx.now.freed }
    requires logged { AreRising 0 (length table.old.items) (blocks_of tx.now.logged) }
    requires direct { AreRising 0 (length table.old.items) (blocks_of tx.now.direct) }
    requires few { writes tx.now < 2 ^ 64 }
    ensures { table.new.items ≡ after_tx tx.now table.old.items }
{
    mark_blocks(table, tx);
}

fn mark_blocks(table: &mut [Latest], tx: &Tx)
    requires freed { AreRising 0 (length table.old) tx.now.freed }
    requires logged { AreRising 0 (length table.old) (blocks_of tx.now.logged) }
    requires direct { AreRising 0 (length table.old) (blocks_of tx.now.direct) }
    requires few { writes tx.now < 2 ^ 64 }
    ensures { table.new ≡ after_tx tx.now table.old }
{
    let number = tx.number.0;
    let logged = tx.logged.as_slice();
    mark_freed(table, number, tx.freed.as_slice());
    mark_writes(table, number, false, logged.len(), tx.direct.as_slice());
    mark_writes(table, number, true, 0, logged);
}

/// The content of a write of a transaction, the logged ones first.
fn written(tx: &Tx, at: usize) -> &Content
    requires { at < writes tx.now }
    ensures { result.now ≡ (write_at (tx.now.logged ++ tx.now.direct) at).1 }
{
    let logged = tx.logged.as_slice();
    if at < logged.len() {
        return &logged[at].1;
    }
    &tx.direct.as_slice()[at - logged.len()].1
}

/// The transaction of a number, of those after a base.
pub fn numbered(history: &[Tx], base: u64, number: u64) -> &Tx
    requires numbers { AreNumbered base (reverse history.now) }
    requires there { (t : Record)
        × (ts : List Record)
        × IsAt t ts (reverse history.now)
        × (t.number ≡ number) }
    ensures { (t : Record) (ts : List Record)
        → IsAt t ts (reverse history.now)
        → t.number ≡ number
        → result.now ≡ t }
{
    &history[(number - base - 1) as usize]
}

/// The content at a place, given the home blocks at the start and the transactions after them.
pub fn find<'a>(
    start: &'a [Option<Content>],
    base: u64,
    history: &'a [Tx],
    block: BlockNo,
    place: Place,
) -> Option<&'a Content>
    requires numbers { AreNumbered base (reverse history.now) }
    requires block { block < length start.now }
    requires place { (c : Option (List ℕ)) × Stands start.now (reverse history.now) block place c }
    ensures { (c : Option (List ℕ))
        → Stands start.now (reverse history.now) block place c
        → MatchOption result (c ≡ None) (λ v. c ≡ Some v.now) }
{
    match place {
        Place::Free => None,
        Place::Start => start[block.0 as usize].as_ref(),
        Place::Written { number, at } => { Some(written(numbered(history, base, number), at)) }
    }
}
