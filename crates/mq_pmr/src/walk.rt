// Walks over the slots and the transactions of a ring, each slot once.
ghost use Rattle.std.specs.Prelude.{◌≡◌, ◌<◌, ◌≤◌, ◌+◌, ◌%◌, ◌++◌, ◌∷◌, [], ℕ, Bool, true, false, length, vec_len, slice_set, drop};
ghost use Rattle.mq_blocks.specs.Limits.{depth};
ghost use Rattle.std.specs.Option.{option_to_list};
ghost use Rattle.std.specs.VecDeque.{deque_len, deque_capacity};
ghost use Rattle.mq_pmr.specs.Slots.{tx_in, done_at, AllDone};
ghost use Rattle.mq_pmr.specs.Rungs.{AreEnds, Walks};

use crate::rungs::Rung;
use crate::slots::SlotRecord;
use mq_blocks::RING_DEPTH;
use std::collections::VecDeque;

/// Notes that the entry at a count was staged.
pub fn note_staged(slots: &mut Vec<SlotRecord>, at: u64, tx: u64)
    requires { length slots.old.items ≡ depth }
    ensures { slots.new.items ≡ slice_set slots.old.items (at % depth) (record { tx = tx; done = false }) }
{
    slots[(at % RING_DEPTH as u64) as usize] = SlotRecord { tx, done: false };
}

/// Notes that the command in a slot has ended with success.
pub fn note_done(slots: &mut Vec<SlotRecord>, slot: usize)
    requires ring { length slots.old.items ≡ depth }
    requires slot { slot < depth }
    ensures { slots.new.items ≡ slice_set slots.old.items slot
        (record { tx = tx_in slots.old.items slot; done = true }) }
{
    let tx = slots[slot].tx;
    slots[slot] = SlotRecord { tx, done: true };
}

/// The number of the transaction whose entry is in a slot.
pub fn tx_of_slot(slots: &Vec<SlotRecord>, slot: usize) -> u64
    requires ring { length slots.now.items ≡ depth }
    requires slot { slot < depth }
    ensures { result ≡ tx_in slots.now.items slot }
{
    slots[slot].tx
}

/// Adds a transaction, for which there is room.
pub fn add_rung(rung: &mut VecDeque<Rung>, next: Rung)
    requires { deque_len rung.old < deque_capacity rung.old }
    ensures items { rung.new.items ≡ rung.old.items ++ next ∷ [] }
    ensures capacity { deque_capacity rung.old ≤ deque_capacity rung.new }
{
    match rung.push_back(next) {
        Ok(()) => {}
        Err(_) => unreachable!(),
    }
}

/// Moves past the done entries up to a count, and returns whether all of them are done.
pub fn pass_to(slots: &Vec<SlotRecord>, passed: &mut u64, end: u64) -> bool
    requires { length slots.now.items ≡ depth }
    ensures up { passed.old ≤ passed.new }
    ensures all { AllDone slots.now.items passed.old passed.new }
    ensures yes { result ≡ true → end ≤ passed.new }
    ensures no { result ≡ false → (passed.new < end) × (done_at slots.now.items passed.new ≡ false) }
    ensures high { (limit : ℕ) → passed.old ≤ limit → end ≤ limit → passed.new ≤ limit }
{
    'walk: while *passed < end {
        if !slots[(*passed % RING_DEPTH as u64) as usize].done {
            return false;
        }
        *passed += 1;
    }
    true
}

/// Moves past the leading transactions that are done, and notes the last of them.
pub fn pass_done(
    slots: &Vec<SlotRecord>,
    passed: &mut u64,
    done: &mut Rung,
    rung: &mut VecDeque<Rung>,
)
    requires { length slots.now.items ≡ depth }
    ensures capacity { deque_capacity rung.old ≤ deque_capacity rung.new }
    ensures walk { (limit : ℕ)
        → AreEnds done.old.end limit rung.old.items
        → done.old.end ≤ passed.old
        → passed.old ≤ limit
        → Walks slots.now.items limit passed.old done.old rung.old.items passed.new done.new rung.new.items }
{
    'transactions: while let Some(next) = first_of(rung) {
        if !pass_to(slots, passed, next.end) {
            return;
        }
        drop_first(rung);
        *done = next;
    }
}

// The first of them.
fn first_of(rung: &VecDeque<Rung>) -> Option<Rung>
    ensures { rung.now.items ≡ option_to_list result ++ drop 1 rung.now.items }
{
    rung.front().copied()
}

fn drop_first(rung: &mut VecDeque<Rung>)
    ensures items { rung.new.items ≡ drop 1 rung.old.items }
    ensures capacity { deque_capacity rung.new ≡ deque_capacity rung.old }
{
    rung.pop_front();
}
