// What a reader is between two calls, and what its model does: a fresh one, power-on, whether a state is bad, and which requests it executes.
#![tactic(auto)]

mod requests;
mod speed;
mod state;

pub use requests::judge;
pub use state::{fresh_reader, is_bad_reader, power_on};
