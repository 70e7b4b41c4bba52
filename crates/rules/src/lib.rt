// The rules of a receiver: what a byte means to it, and which event a stop byte tells.
#![tactic(auto)]

mod byte;
mod stop;

pub use byte::at_byte;
pub use stop::at_stop;
