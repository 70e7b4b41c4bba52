// How far a long input is read, for a terminal: when a notice of that is due, and its text.
#![tactic(auto)]

mod notice;
mod progress;

pub use notice::{blanks, notice_of};
pub use progress::{Progress, after_block, after_notice, fresh_progress, is_due, seconds};
