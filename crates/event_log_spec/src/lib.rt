// The addressed reader's event log, as types alone: the record, what a request makes it do, and what the calls by value answer. What is so is
// in specs/; the crate `event_log` does it.
#![tactic(auto)]

mod log;

use link_spec::{LEAST_CONTENT, MOST_DATA};
pub use log::{Answered, Doing, Log};
use wire_spec::MOST_IMAGE;

// The log holds the last 128 entries, each with 8 bytes of its own.
pub const MOST_HELD: usize = 128;

pub const BODY_LENGTH: usize = 8;

pub const RING_LENGTH: usize = MOST_HELD * BODY_LENGTH;

// What a read answers: an identifier of four bytes, and a body.
pub const ENTRY_LENGTH: usize = 4 + BODY_LENGTH;

// The out buffer holds the image of any frame.
pub const ROOM: usize = MOST_IMAGE;

// A content without its check of one byte; it has an address, an identifier and a command at least.
pub const LEAST_FRONT: usize = LEAST_CONTENT - 1;

pub const MOST_FRONT: usize = LEAST_FRONT + MOST_DATA;

// The commands: read the oldest waiting entry, delete it, restore all that are deleted, delete all.
pub const READ: u8 = 0x10;

pub const DELETE: u8 = 0x11;

pub const RESTORE: u8 = 0x12;

pub const CLEAR: u8 = 0x13;
