// A tape's listing, chunk by chunk.
ghost use Rattle.std.specs.Prelude.{◌≡◌, false, ◌≤◌, length, Ok};
ghost use Rattle.tape_spec.specs.Limits.{least_room};
ghost use Rattle.tape_spec.specs.Taping.{bad_tape, listed_out, text_written, going, listed};

use crate::run::run;
use ground::Refusal;
use reel::{after_kind, is_bad_tape, receiver_on, set_receiver};
use tape_spec::{LEAST_ROOM, Listed, Next, Tape};

// Records that are heard together at most.
const MOST_RUN: usize = 128;

// Takes the chunk, and writes the rows of its events to the front of `out`. It stops where fewer than LEAST_ROOM bytes of `out` are
// left, and where nothing further is read. Refuses a receiver that the link refuses and a body after the last permitted record
// (BadState), and an `out` under LEAST_ROOM (NoRoom), and then leaves the buffer as it was.
pub fn list(tape: Tape, chunk: &[u8], out: &mut [u8]) -> Result<Listed, Refusal>
    ensures { listed_out tape result out.new ≡ listed tape chunk.now out.old }
{
    if is_bad_tape(tape) {
        return Err(Refusal::BadState);
    }
    if out.len() < LEAST_ROOM {
        return Err(Refusal::NoRoom);
    }
    Ok(go(tape, chunk, out))
}

// The same, of a tape that no row of the refusal table names.
fn go(mut tape: Tape, chunk: &[u8], out: &mut [u8]) -> Listed
    requires tape_good { bad_tape tape ≡ false }
    requires out_roomy { least_room ≤ length out.old }
    ensures { listed_out tape (Ok result) out.new ≡ text_written (going (length out.old) tape chunk.now) out.old }
{
    let mut piece = [0u8; MOST_RUN];
    let mut taken: usize = 0;
    let mut written: usize = 0;
    while taken < chunk.len() && out.len() - written >= LEAST_ROOM {
        match tape.next {
            Next::Kind => {
                tape.next = after_kind(tape.records, chunk[taken]);
                taken += 1;
            }
            Next::Body(line) => {
                let receiver = receiver_on(tape.receivers, line);
                let rest = &chunk[taken..];
                let ran = run(line, receiver, tape.records, rest, &mut piece, out, written);
                set_receiver(&mut tape.receivers, line, ran.receiver);
                tape.records += ran.count as u32;
                tape.next = Next::Kind;
                taken += 2 * ran.count - 1;
                written = ran.end;
            }
            Next::Bad | Next::Full => break,
        }
    }
    Listed {
        tape,
        taken,
        written,
    }
}
