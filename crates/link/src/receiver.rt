// What the receiver of either line hears in a piece of a stream.
ghost use Rattle.std.specs.Prelude.{◌≡◌, ◌≤◌, Ok};
ghost use Rattle.wire_spec.specs.Limits.{most_content};
ghost use Rattle.link_spec.specs.Receiving.{saying, said_of, heard, received};

use ground::Refusal;
use link_spec::{Heard, Phase, Receiver, Turn, Verdict};
use rules::{at_byte, at_stop};
use station::{is_bad_state, outside};
use wire_spec::START;

// The first event inside a piece, and how many bytes were taken, up to and with its byte.
#[derive(Clone, Copy)]
struct Found {
    verdict: Verdict,
    taken: usize,
}

// Takes the piece up to the first event in it, or all of it where there is none. Refuses a count over 64 and an address that no
// station may have (BadState).
#[tactic(auto, unfolding(link_spec::specs::Receiving::received))]
pub fn receive(receiver: Receiver, piece: &[u8]) -> Result<Heard, Refusal>
    ensures { saying receiver result ≡ received receiver piece.now }
{
    if is_bad_state(receiver) {
        return Err(Refusal::BadState);
    }
    Ok(hear(receiver, piece))
}

// The same, of a receiver that no row of the refusal table names.
fn hear(receiver: Receiver, piece: &[u8]) -> Heard
    requires { receiver.count ≤ most_content }
    ensures { saying receiver (Ok result) ≡ heard 0 receiver piece.now }
{
    let station = receiver.station;
    let mut phase = receiver.phase;
    let mut count = receiver.count;
    let mut content = receiver.content;
    let mut taken: usize = 0;
    // counted by hand, since a `for` over the bytes takes 1.7 times as long where all are stuffed
    let found = loop {
        if taken == piece.len() {
            let receiver = Receiver {
                station,
                phase,
                count,
                content,
            };
            return heard_with(receiver, None, taken);
        }
        let turn = at_byte(station, phase, count, piece[taken]);
        taken += 1;
        match turn {
            Turn::Rest => {
                // it is ignored, and so is all before the next FD
                while taken < piece.len() && piece[taken] != START {
                    taken += 1;
                }
            }
            Turn::Begin => {
                phase = Phase::Inside;
                count = 0;
            }
            Turn::Wait => phase = Phase::Pending,
            Turn::Keep(byte) => {
                content[count] = byte;
                phase = Phase::Inside;
                count += 1;
            }
            Turn::Stop => {
                let verdict = at_stop(station, &content[..count]);
                break Found { verdict, taken };
            }
            Turn::Tell(event) => {
                let verdict = Verdict { event, length: 0 };
                break Found { verdict, taken };
            }
        }
    };
    heard_with(outside(station, content), Some(found.verdict), found.taken)
}

// The answer with this receiver and verdict; the event's content is the front part of what the receiver kept.
fn heard_with(receiver: Receiver, told: Option<Verdict>, taken: usize) -> Heard
    ensures { saying receiver (Ok result) ≡ said_of receiver told taken }
{
    let content = receiver.content;
    Heard {
        receiver,
        told,
        content,
        taken,
    }
}
