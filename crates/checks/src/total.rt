// The sum, the check of the addressed line.
ghost use Rattle.std.specs.Prelude.{◌≡◌};
ghost use Rattle.checks.specs.Sum.{sum as sum_of};

// The sum of these bytes, modulo 256.
pub fn sum(bytes: &[u8]) -> u8
    ensures { result ≡ sum_of bytes.now }
{
    let mut total: u8 = 0;
    for &byte in bytes {
        total = total.wrapping_add(byte);
    }
    total
}
