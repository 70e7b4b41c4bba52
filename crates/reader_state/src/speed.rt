// The speeds above 115200 baud, which not every reader has, and which none keeps without power.
ghost use Rattle.std.specs.Prelude.{◌≡◌};
ghost use Rattle.reader_spec.specs.Speeds.{is_above, has_speed, powered_speed};

use request::is_speed;

// The values of parameter 02 for 9600 baud, to which a power-on returns, and for 115200, the last that every reader has.
pub(crate) const SPEED_9600: u8 = 3;

const SPEED_115200: u8 = 7;

fn is_above(speed: u8) -> bool
    ensures { result ≡ is_above speed }
{
    speed > SPEED_115200
}

// Whether a reader, fast or slow, has this speed.
pub(crate) fn has_speed(fast: bool, speed: u8) -> bool
    ensures { result ≡ has_speed fast speed }
{
    is_speed(speed) && (fast || !is_above(speed))
}

// The speed after a power-on.
pub(crate) fn powered_speed(speed: u8) -> u8
    ensures { result ≡ powered_speed speed }
{
    if is_above(speed) { SPEED_9600 } else { speed }
}
