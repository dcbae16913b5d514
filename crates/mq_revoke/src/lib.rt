//! Where a transaction writes its blocks - in the journal area of its queue, or directly at home - and
//! which earlier copies it revokes.
#![tactic(auto)]

mod laws;
mod placement;

pub use laws::{a_placement_is_the_only_one, a_plan_meets_the_guard};
pub use placement::{Placement, Planned, TooLarge, plan};
