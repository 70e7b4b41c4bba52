// Whole numbers in decimal digits.
ghost use Rattle.std.specs.Prelude.{◌≡◌, ◌≤◌, length, drop};
ghost use Rattle.ground.specs.Laying.{ended, put as put_of};
ghost use Rattle.text.specs.Decimal.{most_digits, decimal};

use ground::{Refusal, put};

// Digits that every 64-bit number has room in.
pub(crate) const MOST_DIGITS: usize = 20;

// Puts the decimal digits of `n` into `out` from the place `at` on. Refuses an `out` that does not reach as far (NoRoom).
pub fn put_decimal(n: u64, out: &mut [u8], at: usize) -> Result<usize, Refusal>
    ensures { ended at result out.new ≡ put_of (decimal n) out.old at }
{
    let mut text = [0u8; MOST_DIGITS];
    let from = lay_digits(n, &mut text);
    put(&text[from..], out, at)
}

// Lays the decimal digits of `n` into the last places of `text`, and answers where they begin.
pub(crate) fn lay_digits(n: u64, text: &mut [u8]) -> usize
    requires { length text.old ≡ most_digits }
    ensures within { result ≤ most_digits }
    ensures digits { drop result text.new ≡ decimal n }
{
    let mut left = n;
    for from in (0..MOST_DIGITS).rev() {
        text[from] = b'0' + (left % 10) as u8;
        left /= 10;
        if left == 0 {
            return from;
        }
    }
    0
}
