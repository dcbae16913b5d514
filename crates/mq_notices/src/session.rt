// A session announces numbers, and serves some of them itself.
ghost use Rattle.std.specs.Prelude.{◌≡◌, ◌<◌, ◌≤◌, [], ◌∷◌, ◌++◌, length};
ghost use Rattle.mq_notices.specs.Ends.{HasFinished, IsAtWork, IsOpen, announced, pushed_by, served_by_session};
ghost use Rattle.mq_notices.specs.Serving.{ServesMore};

use crate::line::Line;
use crate::notice::Notice;
use crate::rule::{Log, Pushes, Takes};
use crate::serving::{Serve, serve_number};
use crossbeam_queue::Pass;
use mq_blocks::TxNo;
use std::sync::Wait;

/// The session's end of a line.
#[derive(Drop)]
pub struct SessionEnd {
    pub(crate) pass: Pass<Notice, Log>,
    // how many notices were pushed, which is the index of the next one
    pub(crate) pushed: u64,
    // the notices that the session took itself
    pub(crate) taken: Vec<Notice>,
    // room for the numbers of all notices
    pub(crate) numbers: Vec<TxNo>,
}

impl SessionEnd {
    // Takes the front notice, if there is one, and serves it.
    fn take_front<C, S: Serve<C>, R: Wait>(
        &mut self,
        rt: &R,
        line: &Line,
        context: &C,
        server: &mut S,
    )
        requires work { IsAtWork line.now self.old }
        requires few { length (pushed_by self.old) ≤ line.now.count }
        requires ready { S.is_ready context.now server.old }
        ensures work { IsAtWork line.now self.new }
        ensures pushed { pushed_by self.new ≡ pushed_by self.old }
        ensures ready { S.is_ready context.now server.new }
        ensures served { ServesMore (S.serves context.now) (served_by_session self.old)
            (served_by_session self.new) server.old server.new }
    {
        if let Some(notice) = line.queue.pop_as::<Takes, R>(rt, &mut self.pass) {
            serve_number(rt, context, server, notice.number);
            self.taken.push_reserved(notice);
        }
    }

    // Pushes the next notice, and wakes the helper if it is to. Where the queue is full, the session takes
    // the front notice, and tries again.
    fn push<C, S: Serve<C>, R: Wait>(
        &mut self,
        rt: &R,
        line: &Line,
        context: &C,
        server: &mut S,
        notice: &Notice,
        wakes: bool,
    )
        requires work { IsAtWork line.now self.old }
        requires next { notice.now.index ≡ length (pushed_by self.old) }
        requires few { length (pushed_by self.old) ≤ line.now.count }
        requires ready { S.is_ready context.now server.old }
        ensures work { IsAtWork line.now self.new }
        ensures pushed { pushed_by self.new ≡ pushed_by self.old ++ notice.now.number ∷ [] }
        ensures ready { S.is_ready context.now server.new }
        ensures served { ServesMore (S.serves context.now) (served_by_session self.old)
            (served_by_session self.new) server.old server.new }
    {
        for _ in rt.forever() {
            match line.queue.push_as::<Pushes, R>(rt, &mut self.pass, *notice) {
                Ok(()) => {
                    self.pushed += 1;
                    if wakes {
                        line.wake.unpark();
                    }
                    return;
                }
                Err(_) => self.take_front(rt, line, context, server),
            }
        }
        unreachable!()
    }

    /// Pushes a notice with this number. As long as the queue is full, the session takes the notice at its
    /// front and serves it. Where `wakes` is false, a helper that sleeps goes on sleeping, and the notice waits
    /// for the next call that wakes it: this is for a number that is served already, so that the helper takes
    /// no turn from the session for nothing.
    pub fn announce<C, S: Serve<C>, R: Wait>(
        &mut self,
        rt: &R,
        line: &Line,
        context: &C,
        server: &mut S,
        number: TxNo,
        wakes: bool,
    )
        requires open { IsOpen line.now self.old }
        requires few { length (announced self.old) < line.now.count }
        requires ready { S.is_ready context.now server.old }
        ensures open { IsOpen line.now self.new }
        ensures announced { announced self.new ≡ announced self.old ++ number ∷ [] }
        ensures ready { S.is_ready context.now server.new }
        ensures served { ServesMore (S.serves context.now) (served_by_session self.old)
            (served_by_session self.new) server.old server.new }
    {
        let notice = Notice {
            index: self.pushed,
            number: Some(number),
        };
        self.push(rt, line, context, server, &notice, wakes);
    }

    /// Pushes the last notice, which has no number, and wakes the helper. As long as the queue is full, the
    /// session takes the notice at its front and serves it.
    pub fn finish<C, S: Serve<C>, R: Wait>(
        &mut self,
        rt: &R,
        line: &Line,
        context: &C,
        server: &mut S,
    )
        requires open { IsOpen line.now self.old }
        requires ready { S.is_ready context.now server.old }
        ensures finished { HasFinished line.now self.new }
        ensures announced { announced self.new ≡ announced self.old }
        ensures ready { S.is_ready context.now server.new }
        ensures served { ServesMore (S.serves context.now) (served_by_session self.old)
            (served_by_session self.new) server.old server.new }
    {
        let last = Notice {
            index: self.pushed,
            number: None,
        };
        self.push(rt, line, context, server, &last, true);
    }
}
