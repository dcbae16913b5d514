//! A run of groups of operations on the key-value store of an image: recovery, the groups on one session, the end,
//! the image that is left, and the law of what such a run promises.
#![tactic(auto)]

mod driving;
mod ending;
mod laws;
mod options;
mod playing;
mod promise_laws;
mod ran;
mod refusal;
mod running;
mod storing;

pub use laws::reported_groups_run_on_the_store;
pub use options::KvOptions;
pub use promise_laws::a_run_keeps_its_promise;
pub use ran::KvRun;
pub use refusal::KvRunRefusal;
pub use running::run_groups;
