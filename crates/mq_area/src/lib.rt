//! Descriptors of transactions: the blocks of the journal area that name what a transaction wrote.
#![tactic(auto)]

mod bytes;
mod descriptor;
mod header;
mod lists;
mod read;
mod refusal;
mod write;

pub use bytes::read_list;
pub use descriptor::{Descriptor, Expect, PlaceIs};
pub use header::{HEADER, Header, Stamp, check_expected, read_header};
pub use lists::{check_lists, check_rest};
pub use read::{has_further, read_descriptor};
pub use refusal::DescriptorRefusal;
pub use write::{write_descriptor, write_one_block};
