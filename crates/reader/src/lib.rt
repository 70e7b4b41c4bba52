// The point reader: the call that does the steps with what was heard, and the part of a buffer to send. A fresh one and power-on are
// handed on.
#![tactic(auto)]

mod asking;
mod buffer;
mod given;
mod memory;
mod reply;
mod steps;
mod values;

pub use buffer::to_send;
pub use reader_spec::{Answer, Buffer, LEAST_FRONT, Last, MOST_FRONT, Parameters, ROOM, Reader};
pub use reader_state::{fresh_reader, power_on};
pub use steps::answer;
