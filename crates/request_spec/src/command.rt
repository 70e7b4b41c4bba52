// The commands, and why a code with its data is none.
ghost use Rattle.std.specs.Prelude.{◌≡◌};
ghost use Rattle.ground.specs.declared.refusal.Refusal.TheVariants.{BadRequest};

use crate::parameter::Parameter;
use ground::Refusal;

// The cards that an antenna reads.
#[derive(Clone, Copy, Debug, PartialEq, Eq)]
pub enum Card {
    Marin,
    Hid,
    Motorola,
}

// What a request asks for: the device header (code 00), to write or read a parameter (01, 02), to read an EM-Marin, HID or Motorola
// card (10, 14, 18).
#[derive(Clone, Copy, Debug, PartialEq, Eq)]
pub enum Command {
    Header,
    Write(Parameter),
    Read(Parameter),
    Card(Card),
}

// Why a request is not executed: its code does not exist, or it does not accept the data.
#[derive(Clone, Copy, Debug, PartialEq, Eq)]
pub enum Fault {
    UnknownCode,
    BadData,
}

// Whoever writes such a request, or reads a reply to it, is refused with one number for both faults.
impl From<Fault> for Refusal {
    ghost from_gives = { λ _ why. why ≡ BadRequest };

    fn from(_fault: Fault) -> Refusal {
        Refusal::BadRequest
    }
}
