//! Ports over a port, for tests: one reports each changing call to a watch, the other refuses one call.
#![tactic(auto)]

mod flaky;
mod port;
mod watch;

pub use flaky::FlakyPort;
pub use port::WatchPort;
pub use watch::{Call, Watch};
