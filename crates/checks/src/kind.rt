// Which check stands at the end of a content, and whether it is right.
ghost use Rattle.std.specs.Prelude.{◌≡◌, ◌+◌, length};
ghost use Rattle.checks.specs.Check.{check_length, is_right};

use crate::register::fcs;
use crate::total::sum;

// The FCS on the point line, the sum on the addressed line.
#[derive(Clone, Copy, Debug, PartialEq, Eq)]
pub enum Check {
    Fcs,
    Sum,
}

// How many bytes it is.
pub fn check_length(check: Check) -> usize
    ensures { result ≡ check_length check }
{
    match check {
        Check::Fcs => 2,
        Check::Sum => 1,
    }
}

// Whether the last bytes of `content` are the check of those before them.
pub fn is_right(check: Check, content: &[u8]) -> bool
    ensures { result ≡ is_right check content.now }
{
    let Some(front) = content.len().checked_sub(check_length(check)) else {
        return false;
    };
    let (front, came) = content.split_at(front);
    match check {
        Check::Fcs => came == fcs(front).to_le_bytes().as_slice(),
        Check::Sum => came == [sum(front)].as_slice(),
    }
}
