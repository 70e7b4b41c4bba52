// Whole numbers below zero too.
ghost use Rattle.std.specs.Prelude.{◌≡◌, pos, ◌-ℤ◌};
ghost use Rattle.ground.specs.Laying.{ended, put as put_of};
ghost use Rattle.text.specs.Decimal.{signed};

use crate::decimal::put_decimal;
use crate::marked::put_marked;
use ground::Refusal;

// Puts `a` less `b` in decimal digits, after a `-` where that is below zero, into `out` from the place `at` on. Refuses an `out` that does not
// reach as far (NoRoom).
pub fn put_difference(a: u64, b: u64, out: &mut [u8], at: usize) -> Result<usize, Refusal>
    ensures { ended at result out.new ≡ put_of (signed (pos a -ℤ pos b)) out.old at }
{
    if a >= b {
        return put_decimal(a - b, out, at);
    }
    put_marked(b'-', b - a, out, at)
}
