// The rows of a report.
ghost use Rattle.std.specs.Prelude.{◌≡◌};
ghost use Rattle.ground.specs.Laying.{ended, put as put_of};
ghost use Rattle.totals_spec.specs.Rows.{title_row, line_name, sums_row};

use ground::{Refusal, put};
use tape_spec::Line;
use text::{put_difference, put_marked};
use totals_spec::Sums;

// Places for the longest row: a letter, five numbers of 20 digits, each after a blank, the sign of the last, and the row's end.
const MOST_ROW: usize = 108;

const BLANK: u8 = b' ';

// Writes the row above both lines' to the front of `out`. Refuses an `out` that is shorter (NoRoom).
#[tactic(auto, unfolding(text::specs::Ascii::ascii, totals_spec::specs::Rows::title_row))]
pub fn write_title(out: &mut [u8]) -> Result<usize, Refusal>
    ensures { ended 0 result out.new ≡ put_of title_row out.old 0 }
{
    put(b"line frames heard inside reserved difference\n", out, 0)
}

// Writes the row of a line to the front of `out`: its letter, its four sums, and what was reserved less what was heard. Refuses an `out` that
// is shorter (NoRoom).
pub fn write_sums(line: Line, sums: Sums, out: &mut [u8]) -> Result<usize, Refusal>
    ensures { ended 0 result out.new ≡ put_of (sums_row line sums) out.old 0 }
{
    let mut row = [0u8; MOST_ROW];
    let mut end = put(name(line), &mut row, 0)?;
    for number in [sums.frames, sums.heard, sums.inside, sums.reserved] {
        end = put_marked(BLANK, number, &mut row, end)?;
    }
    let apart = put(&[BLANK], &mut row, end)?;
    let differed = put_difference(sums.reserved, sums.heard, &mut row, apart)?;
    let length = put(b"\n", &mut row, differed)?;
    put(&row[..length], out, 0)
}

// The letter of a line.
#[tactic(auto, unfolding(text::specs::Ascii::ascii, totals_spec::specs::Rows::line_name))]
fn name(line: Line) -> &'static [u8]
    ensures { result.now ≡ line_name line }
{
    match line {
        Line::Point => b"P",
        Line::Addressed => b"A",
    }
}
