//! What a run reports: its commits and reads in order, what each group was answered, and how it ended; and
//! the text of it.
#![tactic(auto)]

mod answers;
mod laws;
mod line;
mod print;
mod replies;
mod words;

pub use laws::a_text_has_one_reading;
pub use line::{Last, Line, Told};
pub use print::report;
