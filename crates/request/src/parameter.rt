// The codes of the reader's parameters, and the values that each may have.
ghost use Rattle.std.specs.Prelude.{◌≡◌};
ghost use Rattle.request_spec.specs.Parameters.{parameter_with, length_of, is_speed, is_value_of};

use request_spec::{CELL_LENGTH, Parameter, SETTINGS_LENGTH};

const LEAST_SPEED: u8 = 3;

const MOST_SPEED: u8 = 10;

// The parameter that a code names, if there is one.
#[tactic(auto, unfolding(request_spec::specs::Parameters::parameter_with))]
pub(crate) fn with_code(code: u8) -> Option<Parameter>
    ensures { result ≡ parameter_with code }
{
    match code {
        0x02 => Some(Parameter::Speed),
        0x05 => Some(Parameter::Settings),
        0x80 => Some(Parameter::Cell),
        _ => None,
    }
}

// How many bytes its value has.
pub fn length_of(parameter: Parameter) -> usize
    ensures { result ≡ length_of parameter }
{
    match parameter {
        Parameter::Speed => 1,
        Parameter::Settings => SETTINGS_LENGTH,
        Parameter::Cell => CELL_LENGTH,
    }
}

// Whether the interface speed may have this value.
pub fn is_speed(value: u8) -> bool
    ensures { result ≡ is_speed value }
{
    (LEAST_SPEED..=MOST_SPEED).contains(&value)
}

// Whether the parameter may be given this value.
#[tactic(auto, unfolding(request_spec::specs::Parameters::is_value_of))]
pub(crate) fn is_value_of(parameter: Parameter, value: &[u8]) -> bool
    ensures { result ≡ is_value_of parameter value.now }
{
    value.len() == length_of(parameter)
        && match parameter {
            Parameter::Speed => is_speed(value[0]),
            Parameter::Settings | Parameter::Cell => true,
        }
}
