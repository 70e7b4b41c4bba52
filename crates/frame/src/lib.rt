// The frames of both lines, written.
#![tactic(auto)]

mod content;
mod writer;

pub use writer::{write_addressed, write_point};
