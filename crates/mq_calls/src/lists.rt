// The lists of an entry.
ghost use Rattle.std.specs.Prelude.{◌≡◌, [], map, IfOk};

use mq_blocks::{BlockNo, OutOfMemory};
use mq_exec::{copy_reply, copy_request};
use mq_ledger::Blocks;
use mq_pages::Write;
use mq_revoke::Placement;
use mq_tree::{Reply, Request};
use std::alloc::Global;
use std::marker::Model;

/// The requests of a group, in order.
#[derive(Drop)]
pub struct Requests(pub Vec<Request>);

impl Model for Requests {
    ghost use Rattle.std.specs.Prelude.{List};
    ghost use Rattle.mq_tree.specs.declared.request.Request.{Request};

    ghost Value = { List Request };

    ghost view = { λ r. r.0.items };
}

/// The replies to a group, in the order of its requests.
#[derive(Drop)]
pub struct Replies(pub Vec<Reply>);

impl Model for Replies {
    ghost use Rattle.std.specs.Prelude.{List};
    ghost use Rattle.mq_tree.specs.declared.request.Reply.{Reply};

    ghost Value = { List Reply };

    ghost view = { λ r. r.0.items };
}

/// Where the blocks of a group go, each list in rising order.
#[derive(Drop)]
pub struct Placed {
    /// What is written as a copy in the journal area of the session's queue.
    pub logged: Blocks,
    /// What is written to its home block by the queue itself.
    pub direct: Blocks,
    /// The direct blocks whose earlier copies no longer count.
    pub revoked: Blocks,
}

impl Model for Placed {
    ghost use Rattle.mq_revoke.specs.Placed.{Placed};

    ghost Value = { Placed };

    ghost view = { λ p. record { logged = p.logged; direct = p.direct; revoked = p.revoked } };
}

/// A copy of the requests.
pub(crate) fn copy_requests(alloc: Global, requests: &[Request]) -> Result<Requests, OutOfMemory>
    ensures { IfOk result (λ copy. copy ≡ requests.now) }
{
    let mut copies = Vec::with_capacity(alloc, requests.len())?;
    for request in requests {
        copies.push(copy_request(alloc, request)?)?;
    }
    Ok(Requests(copies))
}

/// A copy of the replies.
pub(crate) fn copy_replies(alloc: Global, replies: &[Reply]) -> Result<Replies, OutOfMemory>
    ensures { IfOk result (λ copy. copy ≡ replies.now) }
{
    let mut copies = Vec::with_capacity(alloc, replies.len())?;
    for reply in replies {
        copies.push(copy_reply(alloc, reply)?)?;
    }
    Ok(Replies(copies))
}

/// A copy of a plan, without the room that it keeps.
pub(crate) fn copy_plan(alloc: Global, plan: &Placement) -> Result<Placed, OutOfMemory>
    ensures { IfOk result (λ copy. copy ≡ plan.now) }
{
    Ok(Placed {
        logged: Blocks(Vec::from_slice(alloc, &plan.logged)?),
        direct: Blocks(Vec::from_slice(alloc, &plan.direct)?),
        revoked: Blocks(Vec::from_slice(alloc, &plan.revoked)?),
    })
}

/// All that is written, as logged.
pub(crate) fn all_logged(alloc: Global, writes: &[Write]) -> Result<Placed, OutOfMemory>
    ensures logged { IfOk result (λ p. p.logged ≡ map (λ w. w.block) writes.now) }
    ensures direct { IfOk result (λ p. p.direct ≡ []) }
    ensures revoked { IfOk result (λ p. p.revoked ≡ []) }
{
    let mut logged = Vec::with_capacity(alloc, writes.len())?;
    for write in writes {
        logged.push(write.block)?;
    }
    Ok(Placed {
        logged: Blocks(logged),
        direct: Blocks(Vec::new(alloc)),
        revoked: Blocks(Vec::new(alloc)),
    })
}
