// Which data each command accepts.
ghost use Rattle.std.specs.Prelude.{◌≡◌};
ghost use Rattle.request_spec.specs.Acceptance.{bare_accepted, write_accepted, read_accepted, acceptance, nack_of, judgement};

use crate::parameter::{is_value_of, with_code};
use request_spec::{Card, Command, Fault};

// What this code asks for with this data.
#[tactic(auto, unfolding(request_spec::specs::Acceptance::acceptance))]
pub fn accept(code: u8, data: &[u8]) -> Result<Command, Fault>
    ensures { judgement result ≡ judgement (acceptance code «data».now) }
{
    match code {
        0x00 => accept_bare(Command::Header, data),
        0x01 => accept_write(data),
        0x02 => accept_read(data),
        0x10 => accept_bare(Command::Card(Card::Marin), data),
        0x14 => accept_bare(Command::Card(Card::Hid), data),
        0x18 => accept_bare(Command::Card(Card::Motorola), data),
        _ => Err(Fault::UnknownCode),
    }
}

// The number of the NACK that answers a fault.
pub fn nack_of(fault: Fault) -> u8
    ensures { result ≡ nack_of fault }
{
    match fault {
        Fault::UnknownCode => 2,
        Fault::BadData => 3,
    }
}

// A command without data.
fn accept_bare(command: Command, data: &[u8]) -> Result<Command, Fault>
    ensures { result ≡ bare_accepted command «data».now }
{
    if data.is_empty() {
        Ok(command)
    } else {
        Err(Fault::BadData)
    }
}

// A parameter's code, then its value.
fn accept_write(data: &[u8]) -> Result<Command, Fault>
    ensures { result ≡ write_accepted «data».now }
{
    let [code, value @ ..] = data else {
        return Err(Fault::BadData);
    };
    let parameter = with_code(*code).ok_or(Fault::BadData)?;
    if is_value_of(parameter, value) {
        Ok(Command::Write(parameter))
    } else {
        Err(Fault::BadData)
    }
}

// A parameter's code alone.
fn accept_read(data: &[u8]) -> Result<Command, Fault>
    ensures { result ≡ read_accepted «data».now }
{
    let [code] = data else {
        return Err(Fault::BadData);
    };
    let parameter = with_code(*code).ok_or(Fault::BadData)?;
    Ok(Command::Read(parameter))
}
