// The room of a queue, in its journal area and in its ring.
ghost use Rattle.std.specs.Prelude.{◌≡◌, ◌↔◌, IsTrue};
ghost use Rattle.mq_blocks.specs.Geometry.{area_of};
ghost use Rattle.mq_queue_side.specs.Stored.{rows_of, next_in, newest_in, covered_in, FitIs, IsBounded};

use crate::{Drawn, Fit, QueueSide};
use mq_blocks::{TxNo, further_blocks};
use mq_drive::Port;
use mq_revoke::Placement;

// The place after the last transaction.
pub(crate) fn next_place<E>(stored: &[Drawn<E>]) -> u64
    ensures { result ≡ next_in (rows_of stored.now) }
{
    match stored.last() {
        Some(last) => last.next,
        None => 0,
    }
}

// The number of the last transaction, or 0.
pub(crate) fn newest<E>(stored: &[Drawn<E>]) -> TxNo
    ensures { result ≡ newest_in (rows_of stored.now) }
{
    match stored.last() {
        Some(last) => last.number,
        None => TxNo(0),
    }
}

// The place after the last transaction that a base covers.
fn covered<E>(stored: &[Drawn<E>], base: TxNo) -> u64
    ensures { result ≡ covered_in base (rows_of stored.now) }
{
    let mut at = stored.len();
    'down: while at > 0 {
        at -= 1;
        if stored[at].number <= base {
            return stored[at].next;
        }
    }
    0
}

impl<P: Port, E> QueueSide<P, E> {
    /// Whether a transaction that is placed so stays within the bounds of numbers, below 2^62 with its
    /// places and at most 2^63 with its counts. A queue that has reached these bounds takes no more.
    pub fn is_bounded(&self, plan: &Placement) -> bool
        ensures { IsTrue result ↔ IsBounded (rows_of self.now.stored.items)
            (P.state self.now.pmr.port) plan.now }
    {
        let copies = plan.logged.len() as u64;
        let further = further_blocks(copies + plan.revoked.len() as u64);
        let entries = (copies + plan.direct.len() as u64).saturating_add(further + 1);
        next_place(&self.stored) + (copies + further) < 1 << 62
            && self.pmr.end().saturating_add(entries) <= 1 << 63
    }

    /// Whether a transaction that is placed so has room: its copies and its descriptor in the journal
    /// area, beside those of the transactions above the base, and its entries in the ring.
    pub fn fits(&self, plan: &Placement, base: TxNo) -> Fit
        ensures { FitIs (area_of self.now.pmr.geometry) base (rows_of self.now.stored.items)
            (P.state self.now.pmr.port) plan.now result }
    {
        let logged = plan.logged.len() as u64;
        let blocks = further_blocks(logged + plan.revoked.len() as u64) + 1;
        let copies = logged + blocks;
        let end = next_place(&self.stored) + copies;
        let area = u64::from(self.pmr.geometry().area());
        if end.saturating_sub(area) > covered(&self.stored, base) {
            return Fit::Area;
        }
        let entries = (logged + plan.direct.len() as u64).saturating_add(blocks);
        if entries > u64::from(self.pmr.room()) {
            return Fit::Ring;
        }
        Fit::Yes
    }
}
