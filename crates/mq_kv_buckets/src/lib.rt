//! The buckets of a key-value store: records of keys and values in blocks, read and edited in place, and what
//! operations answer and do.
#![tactic(auto)]

mod check;
mod edit;
mod key;
mod laws;
mod operation;
mod record;
mod spot;
mod step;

pub use check::check_bucket;
pub use key::{KEY_LIMIT, VALUE_LIMIT, bucket_of, is_key};
pub use laws::{a_bucket_has_its_records, buckets_are_a_store, one_offset_is_the_first_bad};
pub use operation::{Key, KvFault, KvOp, KvReply, Value};
pub use spot::{Spot, get};
pub use step::{Place, Step, carry_out, plan};
