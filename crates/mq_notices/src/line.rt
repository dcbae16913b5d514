// The queue between a session and its helper, with an end for each.
ghost use Rattle.std.specs.Prelude.{◌≡◌, [], IfOk};
ghost use Rattle.mq_notices.specs.Ends.{IsFresh, IsOpen, announced, served_by_session};

use crate::helper::HelperEnd;
use crate::rule::{Queue, Roles};
use crate::session::SessionEnd;
use crossbeam_utils::sync::{Parker, Unparker};
use mq_blocks::OutOfMemory;
use std::alloc::Global;

/// How many notices the queue holds.
const CAPACITY: usize = 64;

/// The queue between a session and its helper, which both share.
#[derive(Drop)]
pub struct Line {
    pub(crate) queue: Queue,
    // wakes the helper
    pub(crate) wake: Unparker,
    // the most numbers that are announced
    pub(crate) count: u32,
}

impl Line {
    /// A queue for a session that announces up to `count` numbers, with its end and the end of its helper.
    /// This takes all the memory that they need.
    pub fn open(alloc: Global, count: u32) -> Result<(Line, SessionEnd, HelperEnd), OutOfMemory>
        ensures count { IfOk result (λ o. o.0.count ≡ count) }
        ensures session { IfOk result (λ o. IsOpen o.0 o.1 × (announced o.1 ≡ []) × (served_by_session o.1 ≡ [])) }
        ensures helper { IfOk result (λ o. IsFresh o.0 o.2) }
    {
        let most = count as usize + 1;
        let mine = Vec::with_capacity(alloc, most)?;
        let theirs = Vec::with_capacity(alloc, most)?;
        let numbers = Vec::with_capacity(alloc, most)?;
        let sleep = Parker::new(alloc)?;
        let wake = sleep.unparker().clone()?;
        let (queue, mut pass) = Queue::ruled(alloc, CAPACITY)?;
        let other = queue.another::<Roles>(&mut pass);
        let line = Line { queue, wake, count };
        let session = SessionEnd {
            pass,
            pushed: 0,
            taken: mine,
            numbers,
        };
        let helper = HelperEnd {
            pass: other,
            taken: theirs,
            sleep,
        };
        Ok((line, session, helper))
    }
}
