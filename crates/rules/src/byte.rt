// What a byte means to a receiver, by where it is.
ghost use Rattle.std.specs.Prelude.{◌≡◌};
ghost use Rattle.link_spec.specs.Moves.{move_of, move_at};
ghost use Rattle.link_spec.specs.Turning.{inside as inside_of, plain as plain_of, partner as partner_of, kept as kept_of};

use link_spec::{Event, Phase, Station, Turn};
use station::takes;
use wire_spec::{ESCAPE, LAST_PARTNER, MOST_CONTENT, START, STOP};

// What a byte is to a receiver of this station, in this phase and after this many content bytes. FD goes before all else.
#[tactic(auto, unfolding(link_spec::specs::Turning::within, link_spec::specs::Turning::turn))]
pub fn at_byte(station: Station, phase: Phase, count: usize, byte: u8) -> Turn
    ensures { move_of result ≡ move_at station phase count byte }
{
    if byte == START {
        return Turn::Begin;
    }
    match phase {
        Phase::Outside => Turn::Rest,
        Phase::Inside => inside(station, count, byte),
        Phase::Pending => partner(count, byte),
    }
}

// Inside a frame, at another byte than FD.
#[tactic(auto, unfolding(link_spec::specs::Turning::content_byte, link_spec::specs::Turning::inside))]
fn inside(station: Station, count: usize, byte: u8) -> Turn
    ensures { result ≡ inside_of station count byte }
{
    if byte == STOP {
        return Turn::Stop;
    }
    match station {
        Station::Addressed(own) if count == 0 => {
            if takes(own, byte) {
                kept(count, byte)
            } else {
                Turn::Tell(Event::Addr)
            }
        }
        _ => plain(count, byte),
    }
}

// At a byte that is neither start nor stop nor address.
#[tactic(auto, unfolding(link_spec::specs::Turning::plain))]
fn plain(count: usize, byte: u8) -> Turn
    ensures { result ≡ plain_of count byte }
{
    if byte == ESCAPE {
        return Turn::Wait;
    }
    kept(count, byte)
}

// After an FF, at another byte than FD.
#[tactic(auto, unfolding(link_spec::specs::Turning::partner))]
fn partner(count: usize, byte: u8) -> Turn
    ensures { result ≡ partner_of count byte }
{
    if byte <= LAST_PARTNER {
        return kept(count, ESCAPE - byte);
    }
    Turn::Tell(Event::Pair)
}

// At the last wire byte of a content byte.
#[tactic(auto, unfolding(link_spec::specs::Turning::kept))]
fn kept(count: usize, byte: u8) -> Turn
    ensures { result ≡ kept_of count byte }
{
    if count < MOST_CONTENT {
        return Turn::Keep(byte);
    }
    Turn::Tell(Event::Long)
}
