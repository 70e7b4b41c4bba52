// A tape under way, as types alone: the two lines, what the tape's next byte is, the receivers of both lines, and what a call on a chunk answers.
// What is so is in specs/; the crates `reel`, `rows` and `tape` do it.
#![tactic(auto)]

mod tape;

pub use tape::{Ending, Line, Listed, Next, Receivers, Tape};
use wire_spec::MOST_CONTENT;

// Records that a tape may hold.
pub const MOST_RECORDS: u32 = 0xFFFF_FFFF;

// Room that every row of a listing has enough of.
pub const LEAST_ROOM: usize = 19 + 3 * MOST_CONTENT;
