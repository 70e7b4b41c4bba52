// The frame writers of both lines.
ghost use Rattle.std.specs.Prelude.{◌≡◌, ◌++◌, ◌+◌, length};
ghost use Rattle.checks.specs.Check.{check_length, with_check};
ghost use Rattle.wire_spec.specs.Writing.{after};
ghost use Rattle.link_spec.specs.Limits.{least_content};
ghost use Rattle.link_spec.specs.Writers.{written_unless, point_written, addressed_written};

use crate::content::write_frame;
use checks::Check;
use ground::Refusal;
use link_spec::{LAST_ADDRESS, MOST_DATA};

// Writes the image of a point frame to the front of `out`, and answers its length. Refuses data over 60 bytes (TooLong) and `out`
// shorter than the image (NoRoom), in this order; a refusal leaves `out` as it was.
#[tactic(auto, unfolding(link_spec::specs::Frame::point_content, link_spec::specs::Writers::point_written))]
pub fn write_point(
    identifier: u8,
    command: u8,
    data: &[u8],
    out: &mut [u8],
) -> Result<usize, Refusal>
    ensures { after result out.new ≡ point_written identifier command «data».now out.old }
{
    write_unless(false, Check::Fcs, &[identifier, command], data, out)
}

// Writes the image of an addressed frame to the front of `out`, and answers its length. Refuses data over 60 bytes (TooLong), address
// FD..FF (BadAddress) and `out` shorter than the image (NoRoom), in this order; a refusal leaves `out` as it was.
#[tactic(auto, unfolding(link_spec::specs::Frame::addressed_content, link_spec::specs::Writers::addressed_written))]
pub fn write_addressed(
    address: u8,
    identifier: u8,
    command: u8,
    data: &[u8],
    out: &mut [u8],
) -> Result<usize, Refusal>
    ensures { after result out.new ≡ addressed_written address identifier command «data».now out.old }
{
    let never = address > LAST_ADDRESS;
    write_unless(
        never,
        Check::Sum,
        &[address, identifier, command],
        data,
        out,
    )
}

// Writes the image of a frame with this head, or refuses it: `never` says that its address is never one.
#[tactic(auto, unfolding(link_spec::specs::Writers::written_unless))]
fn write_unless(
    never: bool,
    check: Check,
    head: &[u8],
    data: &[u8],
    out: &mut [u8],
) -> Result<usize, Refusal>
    requires { length head.now + check_length check ≡ least_content }
    ensures { after result out.new
        ≡ written_unless never «data».now (with_check check (head.now ++ «data».now)) out.old }
{
    if data.len() > MOST_DATA {
        return Err(Refusal::TooLong);
    }
    if never {
        return Err(Refusal::BadAddress);
    }
    write_frame(check, head, data, out)
}
