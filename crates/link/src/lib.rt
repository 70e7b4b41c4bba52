// The two serial lines of ProX card readers: what a receiver of either hears and, handed on, fresh receivers and the writers of frames.
#![tactic(auto)]

mod receiver;

pub use frame::{write_addressed, write_point};
pub use link_spec::{
    BROADCAST, Event, Heard, LAST_ADDRESS, LEAST_CONTENT, MASTER, MOST_DATA, Phase, Receiver,
    RefusedStation, Station, Verdict,
};
pub use receiver::receive;
pub use station::{fresh_addressed, fresh_point, is_bad_state};
