// What stations write and hear, as types alone: a station, what one byte makes a receiver do, the receiver's state, and what it tells. What is
// so is in specs/; the crates `frame`, `station`, `rules` and `link` do it.
#![tactic(auto)]

mod event;
mod receiver;
mod station;

pub use event::{Event, Verdict};
pub use receiver::{Heard, Phase, Receiver, RefusedStation, Turn};
pub use station::{BROADCAST, LAST_ADDRESS, MASTER, Station};
use wire_spec::MOST_CONTENT;

// The fewest bytes of a frame's content: a frame with no data.
pub const LEAST_CONTENT: usize = 4;

// The most bytes of a frame's data.
pub const MOST_DATA: usize = MOST_CONTENT - LEAST_CONTENT;
