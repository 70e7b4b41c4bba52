// Which of the requests that there may be this reader executes.
ghost use Rattle.std.specs.Prelude.{◌≡◌, true};
ghost use Rattle.request_spec.specs.Parameters.{is_value_of};
ghost use Rattle.request_spec.specs.Acceptance.{FitsCommand, judgement};
ghost use Rattle.reader_spec.specs.Speeds.{has_value, serves as serves_of, served};

use crate::speed::has_speed;
use request::{Command, Fault, Parameter, accept};

// What a reader, fast or slow, makes of a request's code and data: what they may be, but for a speed that it does not have.
pub fn judge(fast: bool, code: u8, data: &[u8]) -> Result<Command, Fault>
    ensures { judgement result ≡ judgement (served fast code «data».now) }
{
    let command = accept(code, data)?;
    if serves(fast, command, data) {
        Ok(command)
    } else {
        Err(Fault::BadData)
    }
}

// Whether it does this command, which came with this data.
fn serves(fast: bool, command: Command, data: &[u8]) -> bool
    requires { FitsCommand command «data».now }
    ensures { result ≡ serves_of fast command «data».now }
{
    match command {
        Command::Write(parameter) => has_value(fast, parameter, &data[1..]),
        Command::Header | Command::Read(_) | Command::Card(_) => true,
    }
}

// Whether a parameter of it may have this value.
fn has_value(fast: bool, parameter: Parameter, value: &[u8]) -> bool
    requires { is_value_of parameter value.now ≡ true }
    ensures { result ≡ has_value fast parameter value.now }
{
    match parameter {
        Parameter::Speed => has_speed(fast, value[0]),
        Parameter::Settings | Parameter::Cell => true,
    }
}
