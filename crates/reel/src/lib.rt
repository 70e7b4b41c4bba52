// A tape under way: what follows a kind byte, the receivers of its two lines, and whether it is bad or over.
#![tactic(auto)]

mod kind;
mod receivers;
mod state;

pub use kind::{after_kind, kind_of};
pub use receivers::{receiver_on, set_receiver};
pub use state::{fresh_tape, is_bad_tape, is_over};
