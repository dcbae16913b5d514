//! For tests: the lines of tables of cases, and what each of them asks.
#![tactic(auto)]

mod line;
mod spelled;

pub use line::{Change, Line, LineRefusal, Program, Question, Shown, read_line};
pub use spelled::sum_of;
