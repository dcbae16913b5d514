//! Requests on the pages of the file system that a session holds: what they answer and change, and which
//! pages they miss. Requests and replies are copied here, too.
#![tactic(auto)]

mod ahead;
mod answer;
mod change;
mod copies;
mod file;
mod group;
mod laws;
mod link;
mod make;
mod named_inode;
mod outcome;
mod remove;
mod rename;
mod rewrite;
mod truncate;
mod view;

pub use copies::{copy_reply, copy_request};
pub use group::run;
pub use laws::{a_change_is_determined, a_difference_is_the_change, a_map_follows, pages_of_a_map};
pub use outcome::{Done, Outcome};
pub use view::View;
