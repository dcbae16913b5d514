//! Recovery of a journal on an NVMe drive, in four parts: the chains of its queues are read, merged by
//! number, the transactions are chosen that stand, and what they left in the journal is written home. The
//! first two and the last stand by themselves, so that another rule of choosing can be put between them.
#![tactic(auto)]

mod chain;
mod choice;
mod contents;
mod copies;
mod descriptors;
mod homes;
mod laws;
mod merge;
mod oldest;
mod ports;
mod queues;
mod recovering;
mod refusal;
mod standing;

pub use chain::{Chain, read_chain};
pub use choice::Recovered;
pub use contents::{read_blocks, read_copy_place, read_home};
pub use copies::{CopyPlace, no_copies, take_over};
pub use descriptors::{Descriptors, JournalDescriptors};
pub use laws::{readable_images_are_whole, recovery_may_be_cut};
pub use merge::take_oldest;
pub use ports::recover;
pub use queues::{QueuesRead, read_chains, read_chains_by};
pub use recovering::recover_chosen;
pub use refusal::{ChainRefusal, ImageFault, RecoverRefusal};
pub use standing::{Standing, find_prefix, stands};
