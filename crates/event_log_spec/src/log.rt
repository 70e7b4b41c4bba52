// The log between two calls, and what a call answers. An entry of the log is what the paper calls an event; here an event is what a receiver
// tells.
use crate::RING_LENGTH;

// The bodies of the last entries in a ring, 8 bytes to a place, of which `start` is the oldest's; how many are held, how many of these, the
// newest, wait to be read; and the identifier of the next entry, from which those of the held ones follow.
#[derive(Clone, Copy)]
pub struct Log {
    pub bodies: [u8; RING_LENGTH],
    pub start: usize,
    pub held: usize,
    pub waiting: usize,
    pub next: u32,
}

// What a request makes the log do: read the oldest waiting entry, delete it, let all that are held wait, or none; or answer with a NACK.
#[derive(Clone, Copy, Debug, PartialEq, Eq)]
pub enum Doing {
    Read,
    Delete,
    Restore,
    Clear,
    Nack(u8),
}

// How many bytes were written to the out buffer for one event, and the log for the next call.
#[derive(Clone, Copy)]
pub struct Answered {
    pub count: usize,
    pub log: Log,
}
