// The kinds of a tape's records: one byte heard on the point line, and one heard on an addressed line by its master.
ghost use Rattle.std.specs.Prelude.{◌≡◌};
ghost use Rattle.tape_spec.specs.Whole.{kind_of};
ghost use Rattle.tape_spec.specs.Coming.{coming, coming_after};

use tape_spec::{Line, MOST_RECORDS, Next};

const POINT: u8 = 0x01;

const ADDRESSED: u8 = 0x02;

// The kind of a line's records.
pub fn kind_of(line: Line) -> u8
    ensures { result ≡ kind_of line }
{
    match line {
        Line::Point => POINT,
        Line::Addressed => ADDRESSED,
    }
}

// What follows a kind byte that comes after this many whole records.
#[tactic(auto, unfolding(tape_spec::specs::Coming::coming_after))]
pub fn after_kind(records: u32, kind: u8) -> Next
    ensures { coming result ≡ coming_after records kind }
{
    if records == MOST_RECORDS {
        return Next::Full;
    }
    match kind {
        POINT => Next::Body(Line::Point),
        ADDRESSED => Next::Body(Line::Addressed),
        _ => Next::Bad,
    }
}
