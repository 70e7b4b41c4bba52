// Whether a frame repeats the last executed command.
ghost use Rattle.std.specs.Prelude.{◌≡◌};
ghost use Rattle.reader_spec.specs.State.{remembered, find as find_of};

use reader_spec::Last;

// The length of the stored reply that a frame with this identifier and command asks for again, if it is a repeat.
pub(crate) fn find(memory: Option<Last>, identifier: u8, command: u8) -> Option<usize>
    ensures { result ≡ find_of (remembered memory) identifier command }
{
    match memory {
        Some(last) if last.identifier == identifier && last.command == command => Some(last.length),
        _ => None,
    }
}
