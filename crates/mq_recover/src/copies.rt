// Where the copies stand that go home.
ghost use Rattle.std.specs.Prelude.{◌≡◌, ◌≤◌, ◌+◌, ◌^◌, length, IfOk, []};
ghost use Rattle.mq_blocks.specs.Limits.{list_limit};
ghost use Rattle.mq_blocks.specs.Descriptor.{AreRising, IsGood};
ghost use Rattle.mq_blocks.specs.Geometry.{homes_of};
ghost use Rattle.mq_recover.specs.Copies.{forgotten, noted, with_all, with_transaction};

use crate::chain::first_place;
use mq_area::Descriptor;
use mq_blocks::{BlockNo, Geometry, OutOfMemory, QueueNo};
use std::alloc::Global;

/// Where a copy stands: a place of a queue's journal area.
#[derive(Clone, Copy, PartialEq, Eq)]
pub struct CopyPlace {
    pub queue: QueueNo,
    pub place: u64,
}

/// The copies of the home blocks where no transaction is taken over yet: no block has one.
pub fn no_copies(alloc: Global, geometry: Geometry) -> Result<Vec<Option<CopyPlace>>, OutOfMemory>
    ensures { IfOk result (λ c. c.items ≡ with_all (homes_of geometry) []) }
{
    let copies = vec![in alloc; None; geometry.homes() as usize]?;
    Ok(copies)
}

/// Takes over the copies of one more transaction, later than all before. A block that it revokes has
/// none any more.
pub fn take_over(copies: &mut [Option<CopyPlace>], next: &Descriptor)
    requires { IsGood list_limit (length copies.old) next.now }
    ensures { copies.new ≡ with_transaction copies.old next.now }
{
    forget(copies, &next.revoked);
    let first = first_place(next);
    note(copies, QueueNo(next.queue), first, &next.logged);
}

// No block of these has a copy any more.
fn forget(copies: &mut [Option<CopyPlace>], revoked: &[BlockNo])
    requires { AreRising 0 (length copies.old) revoked.now }
    ensures { copies.new ≡ forgotten copies.old revoked.now }
{
    for b in revoked {
        copies[b.0 as usize] = None;
    }
}

// These blocks have copies from a place of a queue on.
fn note(copies: &mut [Option<CopyPlace>], queue: QueueNo, first: u64, logged: &[BlockNo])
    requires rising { AreRising 0 (length copies.old) logged.now }
    requires end { first + length logged.now ≤ 2 ^ 62 }
    ensures { copies.new ≡ noted copies.old queue first logged.now }
{
    let mut place = first;
    for b in logged {
        copies[b.0 as usize] = Some(CopyPlace { queue, place });
        place += 1;
    }
}
