// How many bytes an antenna answers for a card.
ghost use Rattle.std.specs.Prelude.{◌≡◌};
ghost use Rattle.request_spec.specs.Cards.{is_code};

use request_spec::{Card, MOST_ANTENNA};

const MOTOROLA_LENGTH: usize = 5;

// Whether an antenna's answer for this card may have this many bytes.
pub fn is_code(card: Card, length: usize) -> bool
    ensures { result ≡ is_code card length }
{
    match card {
        Card::Marin | Card::Hid => (1..=MOST_ANTENNA).contains(&length),
        Card::Motorola => length == MOTOROLA_LENGTH,
    }
}
