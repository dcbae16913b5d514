//! Notices that a session passes to its helper through a bounded queue. Where the queue is full, the
//! session takes the front notice and serves it itself.
#![tactic(auto)]

mod closing;
mod helper;
mod laws;
mod line;
mod merging;
mod notice;
mod rule;
mod serving;
mod session;

pub use closing::close;
pub use helper::HelperEnd;
pub use laws::the_rule_is_the_protocol;
pub use line::Line;
pub use notice::Notice;
pub use rule::Log;
pub use serving::Serve;
pub use session::SessionEnd;
