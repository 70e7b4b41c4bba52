// The receivers of both lines of a tape: fresh, one of them, with another on a line, and whether one is in a bad state.
ghost use Rattle.std.specs.Prelude.{◌≡◌};
ghost use Rattle.tape_spec.specs.Whole.{fresh_receivers, receiver_on, with_receiver};
ghost use Rattle.tape_spec.specs.Taping.{bad_receivers};

use link::{MASTER, Receiver, fresh_addressed, fresh_point, is_bad_state};
use tape_spec::{Line, Receivers};

pub(crate) fn fresh_receivers() -> Receivers
    ensures { result ≡ fresh_receivers }
{
    Receivers {
        point: fresh_point(),
        addressed: fresh_addressed(MASTER).unwrap(),
    }
}

// The receiver of a line.
pub fn receiver_on(receivers: Receivers, line: Line) -> Receiver
    ensures { result ≡ receiver_on line receivers }
{
    match line {
        Line::Point => receivers.point,
        Line::Addressed => receivers.addressed,
    }
}

// Puts another receiver on a line.
pub fn set_receiver(receivers: &mut Receivers, line: Line, receiver: Receiver)
    ensures { receivers.new ≡ with_receiver line receiver receivers.old }
{
    match line {
        Line::Point => receivers.point = receiver,
        Line::Addressed => receivers.addressed = receiver,
    }
}

// Whether one of them is in a state that the link refuses.
pub(crate) fn has_bad(receivers: Receivers) -> bool
    ensures { result ≡ bad_receivers receivers }
{
    is_bad_state(receivers.point) || is_bad_state(receivers.addressed)
}
