// The rows of a report above its last, each put to the front of a lent buffer.
#![tactic(auto)]

mod row;

pub use row::{write_sums, write_title};
