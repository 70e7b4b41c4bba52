// A content stuffed, and how long it is then.
ghost use Rattle.std.specs.Prelude.{◌≡◌, ◌+◌, ◌≤◌, length};
ghost use Rattle.ground.specs.Laying.{laid};
ghost use Rattle.wire_spec.specs.Stuffing.{stuffed as stuffed_of, stuffing as stuffing_of};

use wire_spec::ESCAPE;

// FD, FE and FF are special: the last three of all bytes.
const FIRST_SPECIAL: u8 = 0xFD;

// Lays one byte, stuffed, into `room` at the place `at`, and answers the place after it.
#[tactic(auto, unfolding(wire_spec::specs::Stuffing::stuffed))]
fn stuff_byte(byte: u8, room: &mut [u8], at: usize) -> usize
    requires { at + length (stuffed_of byte) ≤ length room.old }
    ensures { (result ≡ at + length (stuffed_of byte)) × (room.new ≡ laid room.old at (stuffed_of byte)) }
{
    if byte < FIRST_SPECIAL {
        room[at] = byte;
        return at + 1;
    }
    room[at] = ESCAPE;
    room[at + 1] = ESCAPE - byte;
    at + 2
}

// Lays the stuffing of `content` into the front of `room`, and answers its length.
pub(crate) fn stuff(content: &[u8], room: &mut [u8]) -> usize
    requires { length (stuffing_of content.now) ≤ length room.old }
    ensures { (result ≡ length (stuffing_of content.now)) × (room.new ≡ laid room.old 0 (stuffing_of content.now)) }
{
    let mut at: usize = 0;
    for &byte in content {
        at = stuff_byte(byte, room, at);
    }
    at
}

// How many bytes a content travels as: one for each of its bytes, and one more for each FD, FE and FF.
#[tactic(auto, unfolding(wire_spec::specs::Stuffing::specials))]
pub(crate) fn stuffed_length(content: &[u8]) -> usize
    ensures { result ≡ length (stuffing_of content.now) }
{
    let mut length = content.len();
    for &byte in content {
        if byte >= FIRST_SPECIAL {
            length += 1;
        }
    }
    length
}
