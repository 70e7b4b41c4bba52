// The bytes of one line, heard together.
ghost use Rattle.std.specs.Prelude.{◌≡◌, false, ◌≤◌, length};
ghost use Rattle.wire_spec.specs.Stuffing.{specials as specials_of};
ghost use Rattle.link_spec.specs.Receiving.{bad_receiver};
ghost use Rattle.tape_spec.specs.Limits.{most_records};
ghost use Rattle.totals_spec.specs.Adding.{account, after_bytes, bad_sums};

use crate::sweep::{keep, skip};
use link::{Event, Phase, Receiver};
use link_spec::Turn;
use rules::{at_byte, at_stop};
use totals_spec::Sums;
use wire_spec::START;

// A line's receiver, and its sums.
#[derive(Clone, Copy)]
pub(crate) struct Account {
    pub(crate) receiver: Receiver,
    pub(crate) sums: Sums,
}

// Lets the receiver hear all of `piece`, by the rules for one byte and, where a run of bytes changes nothing else, by a sweep over it. At each
// FRAME it adds a frame, the bytes of its image, and those that are reserved for it.
pub(crate) fn hear(receiver: Receiver, sums: Sums, piece: &[u8]) -> Account
    requires good { bad_receiver receiver ≡ false }
    requires counted { bad_sums most_records sums ≡ false }
    requires short { length piece.now ≤ most_records }
    ensures { account result.receiver result.sums ≡ after_bytes (account receiver sums) piece.now }
{
    let mut phase = receiver.phase;
    let mut count = receiver.count;
    let mut content = receiver.content;
    // the content bytes so far for each of which an image has a byte more
    let mut specials = count_specials(&content[..count]);
    let mut frames = sums.frames;
    let mut inside = sums.inside;
    let mut reserved = sums.reserved;
    let mut taken: usize = 0;
    while taken < piece.len() {
        match phase {
            Phase::Outside => taken = skip(piece, taken),
            Phase::Inside => {
                let kept = keep(receiver.station, &mut content, count, piece, taken);
                taken += kept - count;
                count = kept;
            }
            Phase::Pending => {}
        }
        if taken < piece.len() {
            let turn = at_byte(receiver.station, phase, count, piece[taken]);
            taken += 1;
            match turn {
                Turn::Rest => {}
                Turn::Begin => {
                    phase = Phase::Inside;
                    count = 0;
                    specials = 0;
                }
                Turn::Wait => phase = Phase::Pending,
                Turn::Keep(byte) => {
                    content[count] = byte;
                    phase = Phase::Inside;
                    count += 1;
                    if byte >= START {
                        specials += 1;
                    }
                }
                Turn::Stop => {
                    if at_stop(receiver.station, &content[..count]).event == Event::Frame {
                        frames += 1;
                        inside += (2 + count + specials) as u64;
                        reserved += (2 + 2 * count) as u64;
                    }
                    phase = Phase::Outside;
                    count = 0;
                    specials = 0;
                }
                Turn::Tell(_) => {
                    phase = Phase::Outside;
                    count = 0;
                    specials = 0;
                }
            }
        }
    }
    Account {
        receiver: Receiver {
            phase,
            count,
            content,
            ..receiver
        },
        sums: Sums {
            frames,
            heard: sums.heard + piece.len() as u64,
            inside,
            reserved,
        },
    }
}

// How many bytes of a content are FD, FE or FF: the last three of all bytes.
fn count_specials(content: &[u8]) -> usize
    ensures { result ≡ specials_of content.now }
{
    content.iter().filter(|&&byte| byte >= START).count()
}
