// The report that ends a tape.
ghost use Rattle.std.specs.Prelude.{◌≡◌, Ok, false, ◌<◌};
ghost use Rattle.totals_spec.specs.Whole.{line_report, ranked};
ghost use Rattle.totals_spec.specs.Adding.{bad_sums, reported_by, reported};

use crate::state::is_bad_totals;
use ends::ending;
use ground::Refusal;
use tape_spec::{Ending, Line};
use totals_spec::{LineReport, Report, Sums, Totals};

// Ranks both lines of a tape that has no byte more, the one that was heard more first and the point line when they are equal. Refuses totals
// that `is_bad_totals` names (BadState), and a tape on which a byte follows the last permitted record (TapeTooLong).
#[tactic(auto, unfolding(totals_spec::specs::Adding::reported))]
pub fn report(totals: Totals) -> Result<Report, Refusal>
    ensures { reported_by result ≡ reported totals }
{
    if is_bad_totals(totals) {
        return Err(Refusal::BadState);
    }
    match ending(totals.tape.next) {
        Ending::Full => Err(Refusal::TapeTooLong),
        ending => Ok(rank(totals.point, totals.addressed, ending, totals.tape.records)),
    }
}

// The report of sums that so many records can give.
#[tactic(auto, unfolding(totals_spec::specs::Whole::ranked))]
fn rank(point: Sums, addressed: Sums, ending: Ending, records: u32) -> Report
    requires point_good { bad_sums records point ≡ false }
    requires addressed_good { bad_sums records addressed ≡ false }
    ensures { reported_by (Ok result) ≡ ranked point addressed ending records }
{
    let is_louder = addressed.heard > point.heard;
    let point = line_report(Line::Point, point);
    let addressed = line_report(Line::Addressed, addressed);
    let (first, second) = if is_louder {
        (addressed, point)
    } else {
        (point, addressed)
    };
    Report {
        first,
        second,
        ending,
        records,
    }
}

// A line's sums, and what was reserved less what was heard, which a signed number has room for.
fn line_report(line: Line, sums: Sums) -> LineReport
    requires heard_fits { sums.heard < 0x8000000000000000 }
    requires reserved_fits { sums.reserved < 0x8000000000000000 }
    ensures { result ≡ line_report line sums }
{
    LineReport {
        line,
        sums,
        difference: sums.reserved as i64 - sums.heard as i64,
    }
}
