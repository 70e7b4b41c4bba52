// A tape's totals, chunk by chunk.
ghost use Rattle.std.specs.Prelude.{◌≡◌, false, ◌*◌, ◌≤◌, length};
ghost use Rattle.totals_spec.specs.Adding.{totals_after, bad_totals, added_out, added};

use crate::line::hear;
use crate::split::split;
use ground::Refusal;
use ledger::is_bad_totals;
use tape_spec::{Receivers, Tape};
use totals_spec::Totals;

// Bytes of a line that are heard together at most.
const MOST_PIECE: usize = 1024;

// Adds up the whole chunk. Refuses totals that `is_bad_totals` names (BadState).
#[tactic(auto, unfolding(totals_spec::specs::Adding::added))]
pub fn add(totals: Totals, chunk: &[u8]) -> Result<Totals, Refusal>
    ensures { added_out totals result ≡ added totals chunk.now }
{
    if is_bad_totals(totals) {
        return Err(Refusal::BadState);
    }
    Ok(add_all(totals, chunk))
}

// The same, of totals that no row of the refusal table names, part by part.
fn add_all(totals: Totals, chunk: &[u8]) -> Totals
    requires { bad_totals totals ≡ false }
    ensures { result ≡ totals_after totals chunk.now }
{
    let mut totals = totals;
    let mut point = [0u8; MOST_PIECE];
    let mut addressed = [0u8; MOST_PIECE];
    for part in chunk.chunks(2 * MOST_PIECE) {
        totals = add_part(totals, part, &mut point, &mut addressed);
    }
    totals
}

// Splits a part of a tape into what was heard on either line, for which `point` and `addressed` have room, and lets each line's receiver hear
// its bytes in one piece.
fn add_part(totals: Totals, part: &[u8], point: &mut [u8], addressed: &mut [u8]) -> Totals
    requires good { bad_totals totals ≡ false }
    requires point_room { length part.now ≤ 2 * length point.old }
    requires addressed_room { length part.now ≤ 2 * length addressed.old }
    ensures { result ≡ totals_after totals part.now }
{
    let parted = split(
        totals.tape.records,
        totals.tape.next,
        part,
        point,
        addressed,
    );
    let on_point = hear(
        totals.tape.receivers.point,
        totals.point,
        &point[..parted.point],
    );
    let on_addressed = hear(
        totals.tape.receivers.addressed,
        totals.addressed,
        &addressed[..parted.addressed],
    );
    Totals {
        tape: Tape {
            records: parted.records,
            next: parted.next,
            receivers: Receivers {
                point: on_point.receiver,
                addressed: on_addressed.receiver,
            },
        },
        point: on_point.sums,
        addressed: on_addressed.sums,
    }
}
