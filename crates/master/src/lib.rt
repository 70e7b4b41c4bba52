// The point line's master: its reading of the replies to typed requests.
#![tactic(auto)]

mod reading;

pub use reading::{data_of, read_reply};
pub use request::Meaning;
