// A reader as it is delivered, and after power-on; and whether its state is bad.
ghost use Rattle.std.specs.Prelude.{◌≡◌};
ghost use Rattle.reader_spec.specs.Parameters.{fresh_parameters, after_power};
ghost use Rattle.reader_spec.specs.State.{remembered, state_of, fresh_state, too_far, bad_state};
ghost use Rattle.reader_spec.specs.Answering.{powering, powered_on};

use crate::speed::{SPEED_9600, has_speed, powered_speed};
use ground::Refusal;
use reader_spec::{Last, Parameters, ROOM, Reader};
use request::{CELL_LENGTH, SETTINGS_LENGTH};

// A fresh reader: speed 3, zeros in the other parameters, and no last command. `fast` says whether its model has the speeds above 115200
// baud, 8 to 10.
pub fn fresh_reader(fast: bool) -> Reader
    ensures { state_of result ≡ fresh_state fast }
{
    Reader {
        parameters: fresh_parameters(),
        fast,
        memory: None,
    }
}

fn fresh_parameters() -> Parameters
    ensures { result ≡ fresh_parameters }
{
    Parameters {
        speed: SPEED_9600,
        settings: [0u8; SETTINGS_LENGTH],
        cell: [0u8; CELL_LENGTH],
    }
}

// Forgets the last command, and keeps the parameters but for a speed above 7, which becomes 3. Refuses a bad reader (BadState).
#[tactic(auto, unfolding(reader_spec::specs::Answering::powered_on))]
pub fn power_on(reader: Reader) -> Result<Reader, Refusal>
    ensures { powering reader result ≡ powered_on (state_of reader) }
{
    if is_bad_reader(reader) {
        return Err(Refusal::BadState);
    }
    Ok(Reader {
        parameters: after_power(reader.parameters),
        memory: None,
        ..reader
    })
}

fn after_power(parameters: Parameters) -> Parameters
    ensures { result ≡ after_power parameters }
{
    Parameters {
        speed: powered_speed(parameters.speed),
        ..parameters
    }
}

// Whether the speed is not 3..10, or above 7 in a slow reader, or the remembered length over 130.
pub fn is_bad_reader(reader: Reader) -> bool
    ensures { result ≡ bad_state (state_of reader) }
{
    !has_speed(reader.fast, reader.parameters.speed) || is_too_far(reader.memory)
}

// Whether the remembered length is over 130.
fn is_too_far(memory: Option<Last>) -> bool
    ensures { result ≡ too_far (remembered memory) }
{
    memory.is_some_and(|last| last.length > ROOM)
}
