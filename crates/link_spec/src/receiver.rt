// The receiver's state, and what its calls answer.
ghost use Rattle.std.specs.Prelude.{◌≡◌};

use crate::event::{Event, Verdict};
use crate::station::Station;
use ground::Refusal;
use wire_spec::MOST_CONTENT;

// Where a receiver is: outside a frame, inside one, or inside one after an FF that waits for its partner.
#[derive(Clone, Copy)]
pub enum Phase {
    Outside,
    Inside,
    Pending,
}

// What the receiver does at a byte: nothing, begin a frame, wait for the partner of an FF, keep a content byte, end the frame, or give
// the frame up and tell why.
#[derive(Clone, Copy)]
pub enum Turn {
    Rest,
    Begin,
    Wait,
    Keep(u8),
    Stop,
    Tell(Event),
}

// A receiver between two calls: its station, where it is, and the first `count` bytes of `content` as the content so far.
#[derive(Clone, Copy)]
pub struct Receiver {
    pub station: Station,
    pub phase: Phase,
    pub count: usize,
    pub content: [u8; MOST_CONTENT],
}

// A station that is refused: why, and a receiver of its address, on which every call is refused.
#[derive(Clone, Copy)]
pub struct RefusedStation {
    pub refusal: Refusal,
    pub receiver: Receiver,
}

// `?` hands on why, without the receiver.
impl From<RefusedStation> for Refusal {
    ghost from_gives = { λ refused why. why ≡ refused.refusal };

    fn from(refused: RefusedStation) -> Refusal {
        refused.refusal
    }
}

// What one call heard: the receiver for the next call; what it tells, which carries the first bytes of `content`, if anything happened; and
// how many bytes of the piece were taken.
#[derive(Clone, Copy)]
pub struct Heard {
    pub receiver: Receiver,
    pub told: Option<Verdict>,
    pub content: [u8; MOST_CONTENT],
    pub taken: usize,
}
