// How a content stands on the wire, stuffed between start and stop: the bytes and limits that have names. What is so is in specs/; the crate
// `wire` does it.
#![tactic(auto)]

// Start and stop of a wire image.
pub const START: u8 = 0xFD;

pub const STOP: u8 = 0xFE;

// FD, FE and FF travel as FF and a partner, which is 00, 01 or 02.
pub const ESCAPE: u8 = 0xFF;

pub const LAST_PARTNER: u8 = 0x02;

// The most bytes of a frame's content.
pub const MOST_CONTENT: usize = 64;

// A buffer this long holds the image of any frame.
pub const MOST_IMAGE: usize = 2 + 2 * MOST_CONTENT;
