// A helper serves notices until it has the last one.
ghost use Rattle.std.specs.Prelude.{◌≡◌, [], ◌++◌};
ghost use Rattle.mq_notices.specs.Ends.{HasHelped, IsFresh, served_by_helper};
ghost use Rattle.mq_notices.specs.Serving.{Serves};

use crate::line::Line;
use crate::notice::Notice;
use crate::rule::{Helps, Log};
use crate::serving::{Serve, serve_number};
use crossbeam_queue::Pass;
use crossbeam_utils::Backoff;
use crossbeam_utils::sync::Parker;
use std::sync::Wait;

/// The helper's end of a line.
#[derive(Drop)]
pub struct HelperEnd {
    pub(crate) pass: Pass<Notice, Log>,
    // the notices that the helper took
    pub(crate) taken: Vec<Notice>,
    // where the helper sleeps while there is no notice
    pub(crate) sleep: Parker,
}

// Waits a little longer each time, and at last sleeps until the session has pushed a notice. If it pushed
// one after the helper's last look, it has left a token here, with which the helper does not sleep.
fn pause<R: Wait>(rt: &R, sleep: &Parker, backoff: &Backoff) {
    if backoff.is_completed() {
        sleep.park(rt);
    } else {
        backoff.snooze();
    }
}

impl HelperEnd {
    /// Sleeps until the session wakes it, and then takes notices and serves each, until it has the last one,
    /// or as many as there can be. It waits while the queue is empty, so it returns only once the session has
    /// finished. It may run after the session on the same thread.
    pub fn help<C, S: Serve<C>, R: Wait>(
        &mut self,
        rt: &R,
        line: &Line,
        context: &C,
        server: &mut S,
    )
        requires fresh { IsFresh line.now self.old }
        requires ready { S.is_ready context.now server.old }
        ensures helped { HasHelped line.now self.new }
        ensures ready { S.is_ready context.now server.new }
        ensures served { Serves (S.serves context.now) server.old (served_by_helper self.new) server.new }
    {
        let most = line.count as usize + 1;
        let backoff = Backoff::new();
        self.sleep.park(rt);
        for _ in rt.forever() {
            if self.taken.len() >= most {
                return;
            }
            match line.queue.pop_as::<Helps, R>(rt, &mut self.pass) {
                Some(notice) => {
                    backoff.reset();
                    serve_number(rt, context, server, notice.number);
                    self.taken.push_reserved(notice);
                    if notice.number.is_none() {
                        return;
                    }
                }
                None => pause(rt, &self.sleep, &backoff),
            }
        }
        unreachable!()
    }
}
