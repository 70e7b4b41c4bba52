// The totals of a tape under way: fresh, bad, and ranked as a report.
#![tactic(auto)]

mod ranks;
mod state;

pub use ranks::report;
pub use state::{fresh_totals, is_bad_totals};
