// The replies, and their frames.
ghost use Rattle.std.specs.Prelude.{◌≤◌, length};
ghost use Rattle.link_spec.specs.Limits.{most_data};
ghost use Rattle.link_spec.specs.Frame.{point_content};
ghost use Rattle.request_spec.specs.Limits.{most_antenna};
ghost use Rattle.request_spec.specs.Replies.{NACK, sign};
ghost use Rattle.reader_spec.specs.Limits.{room};
ghost use Rattle.reader_spec.specs.Parameters.{value_of};
ghost use Rattle.reader_spec.specs.Replies.{reply_content, reply_to};
ghost use Rattle.reader.specs.Replies.{Fills};

use crate::given::{Device, Request};
use crate::values::value;
use link::write_point;
use reader_spec::Parameters;
use request::{ACK, Command, SIGN, is_code};

// The NACKs to a wrong check, and for no card.
pub(crate) const WRONG_CHECK: u8 = 1;

const NO_CARD: u8 = 6;

// Writes the frame with this command and data to the front of `out`, and answers its length. It fits, so nothing is refused.
fn write(identifier: u8, command: u8, data: &[u8], out: &mut [u8]) -> usize
    requires { (length «data».now ≤ most_data) × (room ≤ length out.old) }
    ensures { Fills result out.new (point_content identifier command «data».now) out.old }
{
    write_point(identifier, command, data, out).unwrap()
}

pub(crate) fn write_nack(identifier: u8, number: u8, out: &mut [u8]) -> usize
    requires { room ≤ length out.old }
    ensures { Fills result out.new (reply_content identifier sign (NACK number)) out.old }
{
    write(identifier, SIGN, &[number], out)
}

// Writes the reply to a command that is executed.
#[tactic(auto, unfolding(reader_spec::specs::Replies::reply_to))]
pub(crate) fn write_reply(
    parameters: Parameters,
    request: Request,
    command: Command,
    device: Device,
    out: &mut [u8],
) -> usize
    requires { (length device.antenna.now ≤ most_antenna) × (room ≤ length out.old) }
    ensures { Fills result out.new (reply_content request.entry.identifier request.entry.code (reply_to (value_of parameters) command device.entry.header device.entry.antenna.now)) out.old }
{
    match command {
        Command::Header => write(request.identifier, request.code, &device.header, out),
        Command::Write(_) => write(request.identifier, SIGN, &[ACK], out),
        Command::Read(parameter) => write(
            request.identifier,
            request.code,
            value(&parameters, parameter),
            out,
        ),
        Command::Card(card) => {
            if is_code(card, device.antenna.len()) {
                write(request.identifier, request.code, device.antenna, out)
            } else {
                write_nack(request.identifier, NO_CARD, out)
            }
        }
    }
}
