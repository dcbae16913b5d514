//! The commands on images but for runs, and `audit` of a trace: each loads an image or a trace, or makes an image,
//! and says one text with a status.
#![tactic(auto)]

mod answer;
mod auditing;
mod check_line;
mod checking;
mod dumping;
mod formatting;
mod lines;
mod listing;
mod loading;
mod names;
mod recovering;
mod standing;
mod trace_lines;

pub use answer::{Answer, refuse_drive, refuse_volume, say_answer};
pub use auditing::audit;
pub use checking::check;
pub use dumping::dump;
pub use formatting::{Numbers, format};
pub use listing::{cat, ls};
pub use loading::load_image;
pub use names::name_of_corrupt;
pub use recovering::recover;
