// The point reader, as types alone: its state, and what it answers to requests and to one that is repeated. What is so is in specs/; the
// crates `reader_state` and `reader` do it.
#![tactic(auto)]

mod reader;

use link_spec::MOST_DATA;
pub use reader::{Answer, Asking, Buffer, Last, Parameters, Reader};
use wire_spec::MOST_IMAGE;

// The store and the out buffer each hold the image of any frame.
pub const ROOM: usize = MOST_IMAGE;

// A content without its check of two bytes; it has an identifier and a command at least.
pub const LEAST_FRONT: usize = 2;

pub const MOST_FRONT: usize = LEAST_FRONT + MOST_DATA;
