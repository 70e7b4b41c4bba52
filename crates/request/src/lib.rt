// Typed requests of the point line: the data that each command accepts, the device header, and the writer of requests' frames.
#![tactic(auto)]

mod card;
mod command;
mod device;
mod parameter;
mod writer;

pub use card::is_code;
pub use command::{accept, nack_of};
pub use device::header;
pub use parameter::{is_speed, length_of};
pub use request_spec::{
    ACK, CELL_LENGTH, Card, Command, Fault, HEADER_LENGTH, MOST_ANTENNA, Meaning, NAME_LENGTH,
    Parameter, SETTINGS_LENGTH, SIGN,
};
pub use writer::write_request;
