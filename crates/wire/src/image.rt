// The wire image of a content: its length, and written.
ghost use Rattle.std.specs.Prelude.{◌≡◌};
ghost use Rattle.ground.specs.Refusals.{tally};
ghost use Rattle.wire_spec.specs.Writing.{after, length_asked, image_written};

use crate::stuffing::{stuff, stuffed_length};
use ground::Refusal;
use wire_spec::{MOST_CONTENT, START, STOP};

// The length of a content's image. Refuses a content over 64 bytes (TooLong).
#[tactic(auto, unfolding(wire_spec::specs::Writing::length_asked))]
pub fn image_length(content: &[u8]) -> Result<usize, Refusal>
    ensures { tally result ≡ length_asked content.now }
{
    if content.len() > MOST_CONTENT {
        return Err(Refusal::TooLong);
    }
    Ok(2 + stuffed_length(content))
}

// Writes the image of a content to the front of `out`, and answers its length. Refuses an `out` shorter than the image (NoRoom), and then
// leaves it as it was. How long a content may be is its caller's matter.
#[tactic(auto, unfolding(wire_spec::specs::Writing::image_written, wire_spec::specs::Image::image))]
pub fn write_image(content: &[u8], out: &mut [u8]) -> Result<usize, Refusal>
    ensures { after result out.new ≡ image_written content.now out.old }
{
    let stuffed = stuffed_length(content);
    // apart, since the stuffing of a very long content and two bytes more could be more than a number holds
    if out.len() < 2 || out.len() - 2 < stuffed {
        return Err(Refusal::NoRoom);
    }
    out[0] = START;
    let end = 1 + stuff(content, &mut out[1..]);
    out[end] = STOP;
    Ok(end + 1)
}
