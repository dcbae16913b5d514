//! One queue's side of a journal - its ring, its journal area and its zone - and the root with the base.
#![tactic(auto)]

mod answers;
mod commit;
mod drain;
mod drawn;
mod homes;
mod laws;
mod number;
mod opening;
mod prepare;
mod room;
mod root;
mod send;
mod side;

pub use answers::{CallCause, Cause, Fit, Refusal, Why};
pub use commit::{Numbered, Prepared};
pub use drawn::Drawn;
pub use laws::{
    a_claim_keeps_sides, a_drain_reaches, a_draw_keeps_sides, a_new_side_is_one,
    a_number_is_stored, a_placement_is_a_plan, events_are_bounded,
};
pub use opening::{open_sides, unmake_sides};
pub use root::Root;
pub use side::QueueSide;
