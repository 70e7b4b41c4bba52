// The row of what a receiver heard, put into a lent buffer.
#![tactic(auto)]

mod event;

pub use event::put_heard;
