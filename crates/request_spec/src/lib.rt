// Typed requests and their replies, as types alone: the commands and parameters, the device header's places, what the master reads in a
// reply, and the refusal of a request that is faulty. What is so is in specs/; the crates `request` and `master` do it.
#![tactic(auto)]

mod command;
mod header;
mod parameter;
mod reply;

pub use command::{Card, Command, Fault};
pub use header::{
    FLAGS_AT, HEADER_LENGTH, KIND_AT, NAME_LENGTH, PROTOCOL_AT, SERIAL_AT, VERSION_AT,
};
pub use parameter::{CELL_LENGTH, Parameter, SETTINGS_LENGTH};
pub use reply::{ACK, Meaning, SIGN};

// The most bytes of an antenna's answer.
pub const MOST_ANTENNA: usize = 8;
