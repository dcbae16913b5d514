// One session passes what it knows to another.
ghost use Rattle.std.specs.Prelude.{◌≡◌, ℕ};
ghost use Rattle.mq_turns.specs.AtDesk.{AtDesk, view};
ghost use Rattle.mq_turns.specs.Desk.{Below};

use crate::users::User;
use mq_turns::{Desk, Machine};

/// From now on `to` has seen every number that `from` saw or drew. Nothing else of the two changes.
pub fn tell<M: Machine>(desk: &Desk<M>, from: &mut User<M>, to: &mut User<M>)
    requires { AtDesk desk.now from.old.chair × AtDesk desk.now to.old.chair }
    ensures at { AtDesk desk.now from.new.chair × AtDesk desk.now to.new.chair }
    ensures queues { (from.new.queue ≡ from.old.queue) × (to.new.queue ≡ to.old.queue) }
    ensures calls { (from.new.calls ≡ from.old.calls) × (to.new.calls ≡ to.old.calls) }
    ensures held { (from.new.held ≡ from.old.held) × (to.new.held ≡ to.old.held) }
    ensures from { view from.new.chair ≡ view from.old.chair }
    ensures to { (n : ℕ)
        × (view to.new.chair ≡ record (view to.old.chair) { seen = n })
        × Below n (view from.old.chair)
        × Below n (view to.old.chair) }
{
    desk.tell(&mut from.chair, &mut to.chair);
}
