// The addressed reader's event log: an empty one, a new entry in it, and the answer to what a receiver heard.
#![tactic(auto)]

mod doing;
mod lent;
mod replies;
mod ring;

pub use event_log_spec::{BODY_LENGTH, LEAST_FRONT, Log, MOST_FRONT, MOST_HELD, RING_LENGTH, ROOM};
pub use lent::{answer, append};
pub use ring::empty_log;
