// The writer of typed requests.
ghost use Rattle.std.specs.Prelude.{◌≡◌};
ghost use Rattle.wire_spec.specs.Writing.{after};
ghost use Rattle.request_spec.specs.Requesting.{request_written};

use crate::command::accept;
use frame::write_point;
use ground::Refusal;

// Writes the image of a request's frame to the front of `out`, and answers its length. Refuses a code that does not exist and data that
// it does not accept (BadRequest), and `out` shorter than the image (NoRoom), in this order; a refusal leaves `out` as it was.
#[tactic(auto, unfolding(request_spec::specs::Requesting::request_written))]
pub fn write_request(
    identifier: u8,
    code: u8,
    data: &[u8],
    out: &mut [u8],
) -> Result<usize, Refusal>
    ensures { after result out.new ≡ request_written identifier code «data».now out.old }
{
    accept(code, data)?;
    write_point(identifier, code, data, out)
}
