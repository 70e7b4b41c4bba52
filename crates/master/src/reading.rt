// The master's reading of a reply.
ghost use Rattle.std.specs.Prelude.{◌≡◌};
ghost use Rattle.request_spec.specs.Replies.{data_of};
ghost use Rattle.request_spec.specs.Reading.{understood, is_due, data_read, sign_read, read_as, reply_read};

use ground::Refusal;
use request::{ACK, Command, HEADER_LENGTH, Meaning, SIGN, accept, is_code, length_of};

const MOST_NACK: u8 = 6;

// Reads the reply to a request: its content, the check cut off. Refuses a request that a reader does not accept (BadRequest), a reply
// with another identifier or none (WrongId), with another command, none or an echoed write (WrongCommand), with data of another length
// (WrongLength), and a sign that is no answer to this request (WrongReason), in this order.
#[tactic(auto, unfolding(request_spec::specs::Reading::reply_read))]
pub fn read_reply(identifier: u8, code: u8, data: &[u8], reply: &[u8]) -> Result<Meaning, Refusal>
    ensures { understood (data_of reply.now) result ≡ reply_read identifier code «data».now reply.now }
{
    let command = accept(code, data)?;
    read_as(identifier, code, command, reply)
}

// The reply to this command.
#[tactic(auto, unfolding(request_spec::specs::Reading::read_as))]
fn read_as(identifier: u8, code: u8, command: Command, reply: &[u8]) -> Result<Meaning, Refusal>
    ensures { understood (data_of reply.now) result ≡ read_as identifier code reply.now command }
{
    match reply {
        [] => Err(Refusal::WrongId),
        [first, ..] if *first != identifier => Err(Refusal::WrongId),
        [_, SIGN, data @ ..] => read_sign(command, data),
        [_, second, data @ ..] if *second == code && code != 0x01 => read_data(command, data),
        _ => Err(Refusal::WrongCommand),
    }
}

// The data of a reply: what stands after its identifier and command.
pub fn data_of(content: &[u8]) -> &[u8]
    ensures { result.now ≡ data_of content.now }
{
    match content {
        [_, _, data @ ..] => data,
        _ => &[],
    }
}

// An ACK or a NACK, with this data.
#[tactic(auto, unfolding(request_spec::specs::Reading::sign_read, request_spec::specs::Reading::reason_read))]
fn read_sign(command: Command, data: &[u8]) -> Result<Meaning, Refusal>
    ensures { understood «data».now result ≡ sign_read command «data».now }
{
    let [reason] = data else {
        return Err(Refusal::WrongLength);
    };
    match *reason {
        ACK if matches!(command, Command::Write(_)) => Ok(Meaning::Ack),
        number @ 1..=MOST_NACK => Ok(Meaning::Nack(number)),
        _ => Err(Refusal::WrongReason),
    }
}

// The request's own command, with this data.
#[tactic(auto, unfolding(request_spec::specs::Reading::data_read))]
fn read_data(command: Command, data: &[u8]) -> Result<Meaning, Refusal>
    ensures { understood «data».now result ≡ data_read command «data».now }
{
    if is_due(command, data.len()) {
        Ok(Meaning::Data)
    } else {
        Err(Refusal::WrongLength)
    }
}

// Whether a command may be answered with this many bytes.
fn is_due(command: Command, length: usize) -> bool
    ensures { result ≡ is_due command length }
{
    match command {
        Command::Header => length == HEADER_LENGTH,
        Command::Write(_) => false,
        Command::Read(parameter) => length == length_of(parameter),
        Command::Card(card) => is_code(card, length),
    }
}
