//! The text of the program on key-value stores: reading its files, and what it prints.
#![tactic(auto)]

mod laws;
mod line;
mod print;
mod read;
mod refusal;
mod report;
mod verb;
mod word;

pub use laws::a_text_has_one_report;
pub use print::{print_bucket, print_misread, print_new, print_report, print_usage};
pub use read::{KvGroup, read_groups};
pub use refusal::KvTextRefusal;
pub use report::{GroupReport, KvReport, LastLine, SyncedGroup};
