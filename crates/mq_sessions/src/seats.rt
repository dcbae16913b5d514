// The sessions at a desk, each with a chair and with the memory for its calls, and the helpers, each with a
// chair.
ghost use Rattle.std.specs.Prelude.{◌≡◌, ◌≤◌, ◌+◌, ◌++◌, ℕ, [], Some, IfOk, map, slice_get, vec_len, vec_capacity};
ghost use Rattle.std.specs.List.{All};
ghost use Rattle.mq_blocks.specs.Geometry.{homes_of};
ghost use Rattle.mq_sessions.specs.Seats.{IsEquipped, IsUncalled};

use crate::users::{Aide, User};
use mq_blocks::{Geometry, OutOfMemory, QueueNo};
use mq_pages::Held;
use mq_revoke::Placement;
use mq_turns::{Chair, Machine};
use std::alloc::Global;

/// The parts of the sessions that take memory.
pub fn equip(
    alloc: Global,
    geometry: Geometry,
    count: u32,
) -> Result<Vec<(Held, Placement)>, OutOfMemory>
    ensures count { IfOk result (λ kits. vec_len kits ≡ count) }
    ensures each { IfOk result (λ kits. All (λ kit. IsEquipped geometry kit.0) kits.items) }
{
    let mut kits = Vec::with_capacity(alloc, count as usize)?;
    for _ in 0..count {
        let held = Held::new(alloc, geometry.homes())?;
        kits.push_reserved((held, Placement::new(alloc)?));
    }
    Ok(kits)
}

/// A helper for each chair behind the first ones, in their order. The first ones, one for each of so many
/// sessions, are left.
pub fn set_apart<M: Machine>(
    chairs: Vec<Chair<M>>,
    sessions: u32,
    helpers: Vec<Aide<M>>,
) -> (Vec<Chair<M>>, Vec<Aide<M>>)
    requires some { sessions ≤ vec_len chairs }
    requires room { (helpers.items ≡ []) × (vec_len chairs ≤ sessions + vec_capacity helpers) }
    ensures chairs { result.0.items ++ map (λ h. h.chair) result.1.items ≡ chairs.items }
    ensures left { vec_len result.0 ≡ sessions }
{
    let mut chairs = chairs;
    let mut helpers = helpers;
    while chairs.len() > sessions as usize {
        let Some(chair) = chairs.pop() else {
            unreachable!()
        };
        helpers.push_reserved(Aide { chair });
    }
    helpers.reverse();
    (chairs, helpers)
}

/// A session for each chair, in their order.
pub fn seat<M: Machine>(
    alloc: Global,
    chairs: Vec<Chair<M>>,
    kits: Vec<(Held, Placement)>,
    sessions: Vec<User<M>>,
) -> Vec<User<M>>
    requires kits { vec_len kits ≡ vec_len chairs }
    requires room { (sessions.items ≡ []) × (vec_len chairs ≤ vec_capacity sessions) }
    requires few { vec_len chairs ≤ 16 }
    ensures chairs { map (λ s. s.chair) result.items ≡ chairs.items }
    ensures kits { map (λ s. (s.held, s.plan)) result.items ≡ kits.items }
    ensures each { (i : ℕ) (s : _)
        → slice_get result.items i ≡ Some s
        → IsUncalled i s.queue s.calls s.wanted.items }
{
    let mut chairs = chairs;
    let mut kits = kits;
    let mut sessions = sessions;
    while let Some(chair) = chairs.pop() {
        let Some((held, plan)) = kits.pop() else {
            unreachable!()
        };
        sessions.push_reserved(User {
            chair,
            queue: QueueNo(chairs.len() as u32),
            calls: 0,
            wanted: Vec::new(alloc),
            held,
            plan,
        });
    }
    sessions.reverse();
    sessions
}

/// The chairs of sessions and then of helpers, both in their order.
pub fn leave<M: Machine>(
    sessions: Vec<User<M>>,
    helpers: Vec<Aide<M>>,
    chairs: Vec<Chair<M>>,
) -> Vec<Chair<M>>
    requires { (chairs.items ≡ []) × (vec_len sessions + vec_len helpers ≤ vec_capacity chairs) }
    ensures { result.items ≡ map (λ s. s.chair) sessions.items ++ map (λ h. h.chair) helpers.items }
{
    let mut sessions = sessions;
    let mut helpers = helpers;
    let mut chairs = chairs;
    while let Some(helper) = helpers.pop() {
        let Aide { chair } = helper;
        chairs.push_reserved(chair);
    }
    while let Some(session) = sessions.pop() {
        let User { chair, .. } = session;
        chairs.push_reserved(chair);
    }
    chairs.reverse();
    chairs
}
