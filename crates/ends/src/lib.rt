// The first and the last row of a listing, each put to the front of a lent buffer, and how a tape ends.
#![tactic(auto)]

mod header;
mod last;

pub use header::write_header;
pub use last::{ending, write_ending, write_last};
