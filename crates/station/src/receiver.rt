// A station's receiver: fresh, outside a frame, and whether its state is bad.
ghost use Rattle.std.specs.Prelude.{◌≡◌};
ghost use Rattle.link_spec.specs.Receiving.{fresh_receiver as fresh_of, outside as outside_of, made, fresh_made, bad_receiver};

use crate::address::has_address;
use ground::Refusal;
use link_spec::{Phase, Receiver, RefusedStation, Station};
use wire_spec::MOST_CONTENT;

// A fresh receiver of the point line.
pub fn fresh_point() -> Receiver
    ensures { result ≡ fresh_of Station.Point }
{
    fresh(Station::Point)
}

// A fresh receiver of the addressed line for a station: 00 the master, else a reader's own address. Refuses 7F and FD..FF (BadAddress); the receiver
// that comes with the refusal is of that address too, and every call on it is refused.
#[tactic(auto, unfolding(link_spec::specs::Receiving::fresh_made))]
pub fn fresh_addressed(own: u8) -> Result<Receiver, RefusedStation>
    ensures { made result ≡ fresh_made own }
{
    let station = Station::Addressed(own);
    let receiver = fresh(station);
    if has_address(station) {
        Ok(receiver)
    } else {
        Err(RefusedStation {
            refusal: Refusal::BadAddress,
            receiver,
        })
    }
}

fn fresh(station: Station) -> Receiver
    ensures { result ≡ fresh_of station }
{
    outside(station, [0u8; MOST_CONTENT])
}

// Outside a frame. What `content` holds is passed over from here on.
pub fn outside(station: Station, content: [u8; MOST_CONTENT]) -> Receiver
    ensures { result ≡ outside_of station content }
{
    Receiver {
        station,
        phase: Phase::Outside,
        count: 0,
        content,
    }
}

// Whether a call on this receiver is refused: its count is over 64, or no station may have its address.
pub fn is_bad_state(receiver: Receiver) -> bool
    ensures { result ≡ bad_receiver receiver }
{
    receiver.count > MOST_CONTENT || !has_address(receiver.station)
}
