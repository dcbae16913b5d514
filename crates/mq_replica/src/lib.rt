//! A second drive that follows a history of updates, and the feeder that offers them to it.
#![tactic(auto)]

mod applying;
mod certain;
mod committing;
mod feeder;
mod held;
mod laws;
mod number;
mod offering;
mod opened;
mod plan;
mod reopen;
mod replica;
mod update;
mod wrapping;

pub use certain::CertainPort;
pub use feeder::Feeder;
pub use laws::{a_number_is_read_again, a_world_serves};
pub use replica::{Follower, Replica};
pub use update::{OfferRefusal, Update, UpdateWrites};
