// Runs of bytes that are passed over or kept as they stand: proved to do what the rules for one byte do byte by byte.
ghost use Rattle.std.specs.Prelude.{◌≡◌, ◌≤◌, length};
ghost use Rattle.wire_spec.specs.Limits.{most_content};
ghost use Rattle.totals.specs.Sweeping.{IsAddress, Skipped, Kept};

use link::Station;
use wire_spec::{MOST_CONTENT, START};

// Outside a frame, where the next FD stands from the place `from` on, or the piece's end.
pub(crate) fn skip(piece: &[u8], from: usize) -> usize
    requires { from ≤ length piece.now }
    ensures { Skipped piece.now from result }
{
    let mut at = from;
    while at < piece.len() && piece[at] != START {
        at += 1;
    }
    at
}

// Inside a frame, keeps the bytes from the place `from` on that stand for themselves, as many as the content has room for, and answers how
// many it then holds. On the addressed line the first is the address, and left to the rules.
pub(crate) fn keep(
    station: Station,
    content: &mut [u8],
    count: usize,
    piece: &[u8],
    from: usize,
) -> usize
    requires sized { length content.old ≡ most_content }
    requires within { count ≤ most_content }
    requires part { from ≤ length piece.now }
    ensures { Kept station content.old count piece.now from result content.new }
{
    if is_address(station, count) {
        return count;
    }
    let mut kept = count;
    let mut at = from;
    while at < piece.len() && kept < MOST_CONTENT && piece[at] < START {
        content[kept] = piece[at];
        kept += 1;
        at += 1;
    }
    kept
}

// Whether the next byte of a frame is its address.
fn is_address(station: Station, count: usize) -> bool
    ensures { IsAddress station count result }
{
    matches!(station, Station::Addressed(_)) && count == 0
}
