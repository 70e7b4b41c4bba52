// The last row of a listing.
ghost use Rattle.std.specs.Prelude.{◌≡◌};
ghost use Rattle.ground.specs.Laying.{ended, put as put_of};
ghost use Rattle.tape_spec.specs.Rows.{word as word_of, last_row};
ghost use Rattle.tape_spec.specs.Taping.{ending as ending_of, last_row_of};

use ground::{Refusal, put};
use tape_spec::{Ending, Next, Tape};
use text::put_decimal;

// Places for the longest last row: a word of 4 letters, a blank, 10 digits and the row's end.
const MOST_LAST: usize = 16;

// Writes the last row of a tape that ends here to the front of `out`, and answers where it ends. Refuses an `out` that is shorter (NoRoom).
pub fn write_last(tape: Tape, out: &mut [u8]) -> Result<usize, Refusal>
    ensures { ended 0 result out.new ≡ put_of (last_row_of tape) out.old 0 }
{
    write_ending(ending(tape.next), tape.records, out)
}

// How a tape ends before this byte.
pub fn ending(next: Next) -> Ending
    ensures { result ≡ ending_of next }
{
    match next {
        Next::Kind => Ending::End,
        Next::Body(_) => Ending::Cut,
        Next::Bad => Ending::Bad,
        Next::Full => Ending::Full,
    }
}

// Writes the last row of a tape that ends like this after this many records to the front of `out`, and answers where it ends. Refuses an
// `out` that is shorter (NoRoom).
pub fn write_ending(ending: Ending, records: u32, out: &mut [u8]) -> Result<usize, Refusal>
    ensures { ended 0 result out.new ≡ put_of (last_row ending records) out.old 0 }
{
    let mut row = [0u8; MOST_LAST];
    let said = put(word(ending), &mut row, 0)?;
    let counted = put_decimal(records as u64, &mut row, said)?;
    let length = put(b"\n", &mut row, counted)?;
    put(&row[..length], out, 0)
}

// The word for an ending, and the blank after it.
#[tactic(auto, unfolding(text::specs::Ascii::ascii, tape_spec::specs::Rows::word))]
fn word(ending: Ending) -> &'static [u8]
    ensures { result.now ≡ word_of ending }
{
    match ending {
        Ending::End => b"end ",
        Ending::Cut => b"cut ",
        Ending::Bad => b"bad ",
        Ending::Full => b"full ",
    }
}
