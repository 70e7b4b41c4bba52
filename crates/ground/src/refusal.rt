// Why a call refused its input.
ghost use Rattle.std.specs.Prelude.{◌≡◌};
ghost use Rattle.ground.specs.Refusals.{numbered};

#[derive(Clone, Copy, Debug, PartialEq, Eq)]
pub enum Refusal {
    NoRoom,
    TooLong,
    BadAddress,
    BadState,
    BadRequest,
    WrongId,
    WrongCommand,
    WrongLength,
    WrongReason,
    TapeTooLong,
}

// The number under which a refusal is published; 0 for none.
pub fn number(refusal: Option<Refusal>) -> u8
    ensures { result ≡ numbered refusal }
{
    match refusal {
        None => 0,
        Some(Refusal::NoRoom) => 1,
        Some(Refusal::TooLong) => 2,
        Some(Refusal::BadAddress) => 3,
        Some(Refusal::BadState) => 4,
        Some(Refusal::BadRequest) => 5,
        Some(Refusal::WrongId) => 6,
        Some(Refusal::WrongCommand) => 7,
        Some(Refusal::WrongLength) => 8,
        Some(Refusal::WrongReason) => 9,
        Some(Refusal::TapeTooLong) => 10,
    }
}
