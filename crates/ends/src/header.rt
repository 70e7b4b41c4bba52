// The first row of a listing.
ghost use Rattle.std.specs.Prelude.{◌≡◌};
ghost use Rattle.ground.specs.Laying.{ended, put as put_of};
ghost use Rattle.tape_spec.specs.Rows.{header_row};

use ground::{Refusal, put};

// Writes the header row to the front of `out`, and answers where it ends. Refuses an `out` that is shorter (NoRoom).
#[tactic(auto, unfolding(text::specs::Ascii::ascii, tape_spec::specs::Rows::header_row))]
pub fn write_header(out: &mut [u8]) -> Result<usize, Refusal>
    ensures { ended 0 result out.new ≡ put_of header_row out.old 0 }
{
    put(b"record line event content\n", out, 0)
}
