//! A run of scripts on an image, what it is in the words of its report, and what it promises: a legal history, the
//! cut of it that the image is, and what recovery leaves.
#![tactic(auto)]

mod counting;
mod ending;
mod history_laws;
mod laws;
mod options;
mod playing;
mod ran;
mod report_laws;
mod running;

pub use history_laws::{
    a_change_has_a_count, a_history_is_a_run, a_log_is_a_history, a_run_goes_on, a_small_run,
    a_volume_has_one_map, each_number_has_its_commit, spelled_scripts_are_of_bytes,
};
pub use laws::{
    a_refusal_is_backed, a_refusal_is_caused, a_refusal_is_charged_once,
    a_refusal_on_an_image_is_backed, a_run_is_answered, a_run_is_cut, a_run_is_legal,
    a_run_is_rung, a_run_on_an_image_keeps_its_promise, every_interleaving_is_recovered,
};
pub use options::{Ending, RunOptions};
pub use ran::ImageRun;
pub use report_laws::{
    a_run_has_fit_replies, a_run_is_in_order, a_run_on_an_image_may_be_reported,
};
pub use running::run_image;
