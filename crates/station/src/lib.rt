// A station: which address it may have, which it takes, and its receiver, fresh or outside a frame.
#![tactic(auto)]

mod address;
mod receiver;

pub use address::takes;
pub use receiver::{fresh_addressed, fresh_point, is_bad_state, outside};
