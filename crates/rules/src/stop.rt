// Which event a stop byte tells.
ghost use Rattle.std.specs.Prelude.{◌≡◌};
ghost use Rattle.link_spec.specs.Events.{verdict};
ghost use Rattle.link_spec.specs.Station.{check_on};
ghost use Rattle.link_spec.specs.Moves.{ruling_of, ruling_at};

use checks::{Check, check_length, is_right};
use link_spec::{Event, LEAST_CONTENT, Station, Verdict};

// What the stop byte after this content tells.
pub fn at_stop(station: Station, content: &[u8]) -> Verdict
    ensures { ruling_of result ≡ ruling_at station content.now }
{
    by_check(check_on(station), content)
}

// The same, of frames with this check.
#[tactic(auto, unfolding(link_spec::specs::Events::verdict))]
fn by_check(check: Check, content: &[u8]) -> Verdict
    ensures { result ≡ verdict check content.now }
{
    if content.len() < LEAST_CONTENT {
        return Verdict {
            event: Event::Short,
            length: 0,
        };
    }
    let length = content.len() - check_length(check);
    let event = if is_right(check, content) {
        Event::Frame
    } else {
        Event::Check
    };
    Verdict { event, length }
}

// The check of the frames that a station hears.
fn check_on(station: Station) -> Check
    ensures { result ≡ check_on station }
{
    match station {
        Station::Point => Check::Fcs,
        Station::Addressed(_) => Check::Sum,
    }
}
