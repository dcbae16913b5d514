//! Two blocks of a drive change together or not at all: a journal of one thread that commits them, and the
//! recovery that finds which commits stand.
#![tactic(auto)]

mod journal;
mod pair;

pub use journal::{FIRST, Journal, SECOND};
pub use pair::{Pair, recover_pair};
