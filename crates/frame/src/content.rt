// The content of a frame put together, head, data and the check after them, and its image written.
ghost use Rattle.std.specs.Prelude.{◌≡◌, ◌++◌, ◌+◌, ◌≤◌, length, take};
ghost use Rattle.ground.specs.Laying.{laid};
ghost use Rattle.checks.specs.Check.{check_of, check_length, with_check};
ghost use Rattle.wire_spec.specs.Limits.{most_content};
ghost use Rattle.wire_spec.specs.Writing.{after, image_written};

use checks::{Check, check_length, fcs, sum};
use ground::Refusal;
use wire::{MOST_CONTENT, write_image};

// Writes the image of the frame with this head and data, known to be within the limit, to the front of `out`, and answers its length.
// Refuses an `out` shorter than the image (NoRoom), and then leaves it as it was.
pub(crate) fn write_frame(
    check: Check,
    head: &[u8],
    data: &[u8],
    out: &mut [u8],
) -> Result<usize, Refusal>
    requires { length head.now + length «data».now + check_length check ≤ most_content }
    ensures { after result out.new ≡ image_written (with_check check (head.now ++ «data».now)) out.old }
{
    let mut content = [0u8; MOST_CONTENT];
    let front = head.len() + data.len();
    content[..head.len()].copy_from_slice(head);
    content[head.len()..front].copy_from_slice(data);
    lay_check(check, &mut content, front);
    let end = front + check_length(check);
    write_image(&content[..end], out)
}

// Lays the check of the first `front` bytes of `content` after them.
fn lay_check(check: Check, content: &mut [u8], front: usize)
    requires { front + check_length check ≤ length content.old }
    ensures { content.new ≡ laid content.old front (check_of check (take front content.old)) }
{
    match check {
        Check::Fcs => {
            let value = fcs(&content[..front]);
            content[front..front + 2].copy_from_slice(&value.to_le_bytes());
        }
        Check::Sum => content[front] = sum(&content[..front]),
    }
}
