// The values of a reader's parameters, as bytes and after a command.
ghost use Rattle.std.specs.Prelude.{◌≡◌, ◌≤◌, length, true};
ghost use Rattle.link_spec.specs.Limits.{most_data};
ghost use Rattle.request_spec.specs.Parameters.{is_value_of};
ghost use Rattle.request_spec.specs.Acceptance.{FitsCommand};
ghost use Rattle.reader_spec.specs.Parameters.{value_of, with_value, done_to};

use reader_spec::Parameters;
use request::{Command, Parameter};
use std::slice;

// The bytes of one of the parameters.
pub(crate) fn value(parameters: &Parameters, parameter: Parameter) -> &[u8]
    ensures is { result.now ≡ value_of parameters.now parameter }
    ensures fits { length result.now ≤ most_data }
{
    match parameter {
        Parameter::Speed => slice::from_ref(&parameters.speed),
        Parameter::Settings => &parameters.settings,
        Parameter::Cell => &parameters.cell,
    }
}

// The parameters with this value of one of them.
fn with_value(mut parameters: Parameters, parameter: Parameter, value: &[u8]) -> Parameters
    requires { is_value_of parameter value.now ≡ true }
    ensures { result ≡ with_value parameters parameter value.now }
{
    match parameter {
        Parameter::Speed => parameters.speed = value[0],
        Parameter::Settings => parameters.settings.copy_from_slice(value),
        Parameter::Cell => parameters.cell.copy_from_slice(value),
    }
    parameters
}

// The parameters after a command that came with this data.
pub(crate) fn after_command(parameters: Parameters, command: Command, data: &[u8]) -> Parameters
    requires { FitsCommand command «data».now }
    ensures { result ≡ done_to parameters command «data».now }
{
    match command {
        Command::Write(parameter) => with_value(parameters, parameter, &data[1..]),
        Command::Header | Command::Read(_) | Command::Card(_) => parameters,
    }
}
