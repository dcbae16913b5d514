//! A queue of an NVMe drive whose ring lies in persistent memory: transactions are staged, rung by one
//! doorbell write each, and completed, and the head takes the place of a commit record (Liao et al.,
//! SOSP 2021, section 4).
#![tactic(auto)]

mod queue;
mod rungs;
mod slots;
mod took;
mod walk;

pub use queue::PmrQueue;
pub use took::Took;
