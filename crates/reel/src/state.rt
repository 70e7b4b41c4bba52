// A tape's state: before its first byte, bad, and over.
ghost use Rattle.std.specs.Prelude.{◌≡◌};
ghost use Rattle.tape_spec.specs.Taping.{fresh_tape, is_over, bad_tape};

use crate::receivers::{fresh_receivers, has_bad};
use tape_spec::{MOST_RECORDS, Next, Tape};

// A tape before its first byte.
pub fn fresh_tape() -> Tape
    ensures { result ≡ fresh_tape }
{
    Tape {
        records: 0,
        next: Next::Kind,
        receivers: fresh_receivers(),
    }
}

// Whether a call on a chunk refuses it (BadState): a receiver that the link refuses, or a body after the last permitted record.
pub fn is_bad_tape(tape: Tape) -> bool
    ensures { result ≡ bad_tape tape }
{
    has_bad(tape.receivers) || matches!(tape.next, Next::Body(_)) && tape.records == MOST_RECORDS
}

// Whether nothing further is read: an unknown kind came, or a byte after the last permitted record.
pub fn is_over(tape: Tape) -> bool
    ensures { result ≡ is_over tape.next }
{
    matches!(tape.next, Next::Bad | Next::Full)
}
