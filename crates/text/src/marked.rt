// A number right after a mark, as a blank or a sign.
ghost use Rattle.std.specs.Prelude.{◌≡◌, ◌∷◌};
ghost use Rattle.ground.specs.Laying.{ended, put as put_of};
ghost use Rattle.text.specs.Decimal.{decimal};

use crate::decimal::{MOST_DIGITS, lay_digits};
use ground::{Refusal, put};

// Puts the byte `mark` and the decimal digits of `n` into `out` from the place `at` on. Refuses an `out` that does not reach as far
// (NoRoom).
pub fn put_marked(mark: u8, n: u64, out: &mut [u8], at: usize) -> Result<usize, Refusal>
    ensures { ended at result out.new ≡ put_of (mark ∷ decimal n) out.old at }
{
    let mut text = [0u8; MOST_DIGITS + 1];
    let from = lay_digits(n, &mut text[1..]);
    text[from] = mark;
    put(&text[from..], out, at)
}
