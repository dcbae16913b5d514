// Two at a line of notices work beside each other.
ghost use Rattle.std.specs.Prelude.{◌≡◌};

use mq_notices::Line as NoticeLine;
use std::sync::Wait;
use std::thread::{Threads, join_mut};

/// One of the two at a line, whose work has a context that all share. With this trait the threads are forked
/// over halves of any type, of which they need only that they may be sent to another thread.
pub(crate) trait Work<C> {
    ghost use Rattle.mq_notices.specs.declared.line.Line.{Line};

    /// What holds of a half before its work.
    ghost may_work: { C → Line → Self → Type 0 };

    /// What the work makes of a half.
    ghost has_worked: { C → Line → Self → Self → Type 0 };

    fn work<R: Wait>(&mut self, rt: &R, context: &C, line: &NoticeLine)
        requires { may_work context.now line.now self.old }
        ensures { has_worked context.now line.now self.old self.new };
}

/// Both halves at a line.
#[derive(Drop)]
pub(crate) struct Halves<S, H> {
    pub(crate) line: NoticeLine,
    pub(crate) session: S,
    pub(crate) helper: H,
}

/// Both do their work, each on a thread of its own where one can be made. Where none can, the helper comes
/// after the session: the session never waits for it, but it waits for the session's last notice.
pub(crate) fn work_both<C: Sync, S: Work<C> + Send, H: Work<C> + Send, R: Threads + Wait + Sync>(
    rt: &R,
    context: &C,
    pair: &mut Halves<S, H>,
)
    requires session { S.may_work context.now pair.old.line pair.old.session }
    requires helper { H.may_work context.now pair.old.line pair.old.helper }
    ensures line { pair.new.line ≡ pair.old.line }
    ensures session { S.has_worked context.now pair.old.line pair.old.session pair.new.session }
    ensures helper { H.has_worked context.now pair.old.line pair.old.helper pair.new.helper }
{
    let line = &pair.line;
    let session = &mut pair.session;
    let helper = &mut pair.helper;
    join_mut(
        rt,
        &mut ||
            requires { H.may_work context.now line.now helper.now }
            ensures { H.has_worked context.entry.now line.entry.now helper.entry.now helper.exit.now }
        { helper.work(rt, context, line) },
        &mut ||
            requires { S.may_work context.now line.now session.now }
            ensures { S.has_worked context.entry.now line.entry.now session.entry.now session.exit.now }
        { session.work(rt, context, line) },
    );
}
