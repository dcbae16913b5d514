// Both ends of a line are put together.
ghost use Rattle.std.specs.Prelude.{◌≡◌};
ghost use Rattle.mq_notices.specs.Ends.{HasFinished, HasHelped, announced, served_by_helper, served_by_session};
ghost use Rattle.mq_notices.specs.Notices.{Merged, all_of, notices_from};

use crate::helper::HelperEnd;
use crate::line::Line;
use crate::merging::merge;
use crate::rule::{Roles, Total};
use crate::session::SessionEnd;
use mq_blocks::TxNo;

/// The numbers of all notices, in the order of their indexes. No notice is left in the queue: the session
/// and its helper took each of them once.
pub fn close(line: Line, session: SessionEnd, helper: HelperEnd) -> Vec<TxNo>
    requires session { HasFinished line session }
    requires helper { HasHelped line helper }
    ensures taken { Merged session.taken.items helper.taken.items (notices_from 0 (all_of (announced session))) }
    ensures served { Merged (served_by_session session) (served_by_helper helper) (announced session) }
    ensures numbers { result.items ≡ announced session }
{
    let SessionEnd {
        mut pass,
        taken: mine,
        numbers,
        ..
    } = session;
    let HelperEnd {
        pass: other,
        taken: theirs,
        ..
    } = helper;
    line.queue.absorb::<Roles>(&mut pass, other);
    line.queue.learn_as::<Total>(&mut pass);
    merge(numbers, &mine, &theirs)
}
