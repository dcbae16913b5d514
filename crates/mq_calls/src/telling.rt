// One session passes what it knows to another.
ghost use Rattle.std.specs.Prelude.{◌≡◌, ℕ};
ghost use Rattle.mq_turns.specs.AtDesk.{AtDesk, view};
ghost use Rattle.mq_turns.specs.Desk.{Below};
ghost use Rattle.mq_calls.specs.Sessions.{IsReady};

use crate::session::{Mqfs, Session};
use mq_drive::Port;
use mq_sessions::tell;

impl<P: Port + Drop> Mqfs<P> {
    /// From now on `to` has seen every number that `from` saw or drew. Nothing else of the two changes.
    pub fn tell(&self, from: &mut Session<P>, to: &mut Session<P>)
        requires desk { AtDesk self.now.desk from.old.chair × AtDesk self.now.desk to.old.chair }
        requires from_ready { IsReady self.now.geometry from.old.queue from.old.calls from.old.held
            (view from.old.chair) }
        requires to_ready { IsReady self.now.geometry to.old.queue to.old.calls to.old.held
            (view to.old.chair) }
        ensures desk { AtDesk self.now.desk from.new.chair × AtDesk self.now.desk to.new.chair }
        ensures from_ready { IsReady self.now.geometry from.new.queue from.new.calls from.new.held
            (view from.new.chair) }
        ensures to_ready { IsReady self.now.geometry to.new.queue to.new.calls to.new.held
            (view to.new.chair) }
        ensures queues { (from.new.queue ≡ from.old.queue) × (to.new.queue ≡ to.old.queue) }
        ensures calls { (from.new.calls ≡ from.old.calls) × (to.new.calls ≡ to.old.calls) }
        ensures from { view from.new.chair ≡ view from.old.chair }
        ensures to { (n : ℕ)
            × (view to.new.chair ≡ record (view to.old.chair) { seen = n })
            × Below n (view from.old.chair)
            × Below n (view to.old.chair) }
    {
        tell(&self.desk, from, to);
    }
}
