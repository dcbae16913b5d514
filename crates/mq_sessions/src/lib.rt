//! Sessions over a journal, for groups of any kind: the pages that a session takes, holds while its group runs,
//! and gives back.
#![tactic(auto)]

mod acting;
mod answers;
mod asked;
mod asking;
mod attempting;
mod checkpointing;
mod committing;
mod drawing;
mod drawn;
mod executor;
mod gate;
mod laws;
mod leaving;
mod opening;
mod pages;
mod planning;
mod preparing;
mod reading;
mod reads;
mod rounds;
mod seats;
mod settling;
mod shaped;
mod telling;
mod users;
mod wanted;

pub use acting::{act, act_durably};
pub use answers::{Answer, Refusal, RefusalCause};
pub use asked::Asked;
pub use asking::ask;
pub use checkpointing::checkpoint;
pub use drawn::a_page_stays_below;
pub use executor::{Executor, Outcome};
pub use gate::{Gate, Open, Point};
pub use laws::{
    current_pages_are_of_the_map, drawn_pages_are_held, held_pages_are_current, held_pages_stay,
    no_page_is_left,
};
pub use opening::open_desk;
pub use planning::held_pages_tell_plans;
pub use reads::Reads;
pub use seats::{equip, leave, seat, set_apart};
pub use settling::{settle, settle_own};
pub use shaped::Shaped;
pub use telling::tell;
pub use users::{Aide, CALL_LIMIT, User};
