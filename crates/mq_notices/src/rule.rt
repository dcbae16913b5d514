// What the queue of notices holds, and what its passes know.
ghost use Rattle.std.specs.Prelude.{◌≡◌, ◌<◌, true, false, [], ◌∷◌, ◌++◌, length};
ghost use Rattle.mq_notices.specs.Rule.{log, IsQueued, AreTaken};

use crate::notice::Notice;
use crossbeam_queue::RuledArrayQueue;
use crossbeam_queue::protocol::{Join, Lesson, Outcome, Protocol, Split};
use mq_blocks::TxNo;
use std::collections::LinkedList;

/// What a pass may do, the numbers of what the session has pushed, and what the session and the helper have
/// taken. No value of it is made.
pub struct Log {
    pub session: bool,
    pub helper: bool,
    pub pushed: LinkedList<Option<TxNo>>,
    pub mine: LinkedList<Notice>,
    pub theirs: LinkedList<Notice>,
}

/// The rule of the queue.
pub struct InOrder;

impl Protocol<Notice, Log> for InOrder {
    ghost use Rattle.std.specs.Prelude.{true, []};
    ghost use Rattle.mq_notices.specs.Rule.{log, IsQueued};

    ghost holds = { IsQueued };

    ghost first = { log true true [] [] [] };
}

/// A queue of notices under the rule.
pub(crate) type Queue = RuledArrayQueue<Notice, Log, InOrder>;

/// A pass is cut into that of the session and that of the helper, and they are put together.
pub(crate) struct Roles;

impl Split<Log> for Roles {
    ghost use Rattle.std.specs.Prelude.{true, false, []};
    ghost use Rattle.mq_notices.specs.Rule.{log};

    ghost left = { λ v. log true false v.pushed v.mine [] };

    ghost right = { λ v. log false true [] [] v.theirs };
}

impl Join<Log> for Roles {
    ghost use Rattle.std.specs.Prelude.{true, false, []};
    ghost use Rattle.mq_notices.specs.Rule.{log};

    ghost both = { λ v w. log true true v.pushed v.mine w.theirs };

    ghost spent = { log false false [] [] [] };
}

/// The session pushes.
pub(crate) struct Pushes;

impl Outcome<Notice, Log> for Pushes {
    ghost then = { λ v x w. w ≡ log v.session v.helper (v.pushed ++ x.number ∷ []) v.mine v.theirs };
}

impl Lesson<Notice, Log> for Pushes {
    ghost fact = { λ v items. length items ≡ length items };
}

/// The session takes the front.
pub(crate) struct Takes;

impl Outcome<Notice, Log> for Takes {
    ghost then = { λ v x w. (w ≡ log v.session v.helper v.pushed (v.mine ++ x ∷ []) v.theirs)
        × (length v.mine < length v.pushed) };
}

impl Lesson<Notice, Log> for Takes {
    ghost fact = { λ v items. length items ≡ length items };
}

/// The helper takes the front.
pub(crate) struct Helps;

impl Outcome<Notice, Log> for Helps {
    ghost then = { λ v x w. w ≡ log v.session v.helper v.pushed v.mine (v.theirs ++ x ∷ []) };
}

impl Lesson<Notice, Log> for Helps {
    ghost fact = { λ v items. length items ≡ length items };
}

/// What was pushed is what was taken and what is left.
pub(crate) struct Total;

impl Lesson<Notice, Log> for Total {
    ghost fact = { λ v items. AreTaken v.pushed v.mine v.theirs items };
}
