// The addresses that a station has and takes.
ghost use Rattle.std.specs.Prelude.{◌≡◌};
ghost use Rattle.link_spec.specs.Address.{is_station, takes as takes_of};
ghost use Rattle.link_spec.specs.Station.{has_address};

use link_spec::{BROADCAST, LAST_ADDRESS, MASTER, Station};

// Whether a station may have this address.
fn is_station(address: u8) -> bool
    ensures { result ≡ is_station address }
{
    address != BROADCAST && address <= LAST_ADDRESS
}

// Whether the station takes a frame with this address.
#[tactic(auto, unfolding(link_spec::specs::Address::takes))]
pub fn takes(own: u8, address: u8) -> bool
    ensures { result ≡ takes_of own address }
{
    if own == MASTER {
        address == MASTER
    } else {
        address == own || address == BROADCAST
    }
}

// Whether a station may have its address. On the point line it has none, and none that is wrong.
pub(crate) fn has_address(station: Station) -> bool
    ensures { result ≡ has_address station }
{
    match station {
        Station::Point => true,
        Station::Addressed(own) => is_station(own),
    }
}
