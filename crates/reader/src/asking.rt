// What an event asks of a reader.
ghost use Rattle.std.specs.Prelude.{◌≡◌};
ghost use Rattle.link_spec.specs.Events.{named};
ghost use Rattle.reader_spec.specs.Asking.{asking};

use link::Event;
use reader_spec::Asking;

pub(crate) fn asked_by(event: Option<Event>) -> Asking
    ensures { result ≡ asking (named event) }
{
    match event {
        Some(Event::Frame) => Asking::Right,
        Some(Event::Check) => Asking::Wrong,
        Some(Event::Short | Event::Long | Event::Pair | Event::Addr) | None => Asking::Nothing,
    }
}
