// The state of totals: before a tape's first byte, and bad.
ghost use Rattle.std.specs.Prelude.{◌≡◌};
ghost use Rattle.totals_spec.specs.Whole.{nothing as nothing_of};
ghost use Rattle.totals_spec.specs.Adding.{fresh_totals, bad_sums, bad_totals};

use reel::{fresh_tape, is_bad_tape};
use totals_spec::{Sums, Totals};
use wire_spec::MOST_IMAGE;

// Totals before a tape's first byte.
pub fn fresh_totals() -> Totals
    ensures { result ≡ fresh_totals }
{
    Totals {
        tape: fresh_tape(),
        point: nothing(),
        addressed: nothing(),
    }
}

// The sums of a line on which nothing was heard.
fn nothing() -> Sums
    ensures { result ≡ nothing_of }
{
    Sums {
        frames: 0,
        heard: 0,
        inside: 0,
        reserved: 0,
    }
}

// Whether a call on these totals refuses them (BadState): the listing refuses the tape, or a line's sums are such as so many records cannot
// give. So no sum can wrap.
pub fn is_bad_totals(totals: Totals) -> bool
    ensures { result ≡ bad_totals totals }
{
    is_bad_tape(totals.tape)
        || is_bad(totals.tape.records, totals.point)
        || is_bad(totals.tape.records, totals.addressed)
}

// Whether so many records cannot give these sums: each counts one byte and one frame at most, and the longest image.
fn is_bad(records: u32, sums: Sums) -> bool
    ensures { result ≡ bad_sums records sums }
{
    let records = records as u64;
    let most = MOST_IMAGE as u64 * records;
    sums.frames > records || sums.heard > records || sums.inside > most || sums.reserved > most
}
