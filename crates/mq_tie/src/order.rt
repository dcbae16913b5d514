// Where each number's entry is stored.
ghost use Rattle.std.specs.Prelude.{◌≡◌, ◌+◌, ◌<◌, ◌≤◌, ◌^◌, ℕ, Some, IfOk, length, vec_len};
ghost use Rattle.std.specs.List.{sum_by};
ghost use Rattle.mq_tie.specs.Stored.{AreWithin, HasStored, IsNoted, drawn_at, stored_by};

use crate::ended::EntryPlace;
use mq_blocks::OutOfMemory;
use mq_drive::Port;
use mq_queue_side::QueueSide;
use std::alloc::Global;

/// The number of entries that the sides store.
pub fn count_stored<P: Port, E>(sides: &[QueueSide<P, E>]) -> usize
    requires few { sum_by (λ s. length s.stored.items) sides.now < 2 ^ 64 }
    ensures { result ≡ sum_by (λ s. length s.stored.items) sides.now }
{
    let mut count = 0;
    for side in sides {
        count += side.stored().len();
    }
    count
}

// Notes where the entries of one queue are stored, each by its number.
fn note_queue<P: Port, E>(
    order: &mut Vec<EntryPlace>,
    sides: &[QueueSide<P, E>],
    queue: usize,
    base: u64,
)
    requires queue { queue < length sides.now }
    requires within { AreWithin (stored_by sides.now) base (vec_len order.old) }
    ensures length { vec_len order.new ≡ vec_len order.old }
    ensures kept { (n : ℕ)
        → IsNoted (stored_by sides.now) base order.old.items n
        → IsNoted (stored_by sides.now) base order.new.items n }
    ensures noted { (place : ℕ) (d : _)
        → drawn_at (stored_by sides.now) (record { queue = queue; place = place }) ≡ Some d
        → IsNoted (stored_by sides.now) base order.new.items d.number }
{
    let stored = sides[queue].stored();
    for place in 0..stored.len() {
        let number = stored[place].number;
        order[(number.0 - base - 1) as usize] = EntryPlace { queue, place };
    }
}

/// Where the entry of each number above the base is stored, for `count` numbers.
pub fn order_of<P: Port, E>(
    alloc: Global,
    sides: &[QueueSide<P, E>],
    count: usize,
    base: u64,
) -> Result<Vec<EntryPlace>, OutOfMemory>
    requires within { AreWithin (stored_by sides.now) base count }
    requires all { (n : ℕ) → base < n → n ≤ base + count → HasStored (stored_by sides.now) n }
    ensures count { IfOk result (λ r. vec_len r ≡ count) }
    ensures noted { IfOk result (λ r. (n : ℕ)
        → base < n
        → n ≤ base + count
        → IsNoted (stored_by sides.now) base r.items n) }
{
    let mut order = vec![in alloc; EntryPlace { queue: 0, place: 0 }; count]?;
    for queue in 0..sides.len() {
        note_queue(&mut order, sides, queue, base);
    }
    Ok(order)
}
