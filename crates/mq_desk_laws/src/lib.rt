//! The rule of a desk over the ports of a journal, for groups of any kind: what the pages, the sides and
//! the root that lie there are by what is known, which group may be drawn, and which number is a base.
#![tactic(auto)]

mod base_laws;
mod laws;
mod values;

pub use base_laws::{
    a_base_is_raised, a_base_is_stored, a_base_stays, a_cell_is_numbered, a_home_write_is_told,
    a_home_write_keeps_its_port, a_kept_map_is_a_base, a_waiting_page_was_logged_last,
    done_queues_reach_the_front, notes_make_a_base, pages_make_a_base, stopped_pages_make_a_base,
};
pub use laws::{
    a_draw_keeps_the_rule, a_home_write_keeps_the_rule, a_raised_base_keeps_the_rule,
    an_opening_is_ruled, charges_keep_the_rule, claims_keep_the_rule,
    the_journal_grows_with_the_desk, values_stay,
};
pub use values::JournalValues;
