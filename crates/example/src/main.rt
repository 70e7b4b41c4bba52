// Writes the request for a reader's device header, as it goes over the point line, and prints its bytes; then hands them to a receiver
// and prints the content of the frame that it hears.
#![tactic(auto)]

ghost use Rattle.std.specs.Prelude.{◌≤◌, length, IfOk};

use ground::{Refusal, put};
use link::{Event, fresh_point, receive, write_point};
use std::io::{Error, Write};
use std::process::ExitCode;
use text::put_pairs;

// Why not both rows are printed: a call refused, no frame was heard, or standard output takes no bytes.
#[derive(Clone, Copy)]
enum Failure {
    Refused(Refusal),
    Unheard,
    Write(Error),
}

impl From<Refusal> for Failure {
    fn from(refusal: Refusal) -> Failure {
        Failure::Refused(refusal)
    }
}

// Puts bytes as hex pairs to the front of a row, and ends it.
fn put_row(bytes: &[u8], row: &mut [u8]) -> Result<usize, Refusal>
    ensures { IfOk result (λ end. end ≤ length row.new) }
{
    let end = put_pairs(bytes, row, 0)?;
    put(b"\n", row, end)
}

// Prints up to 8 bytes as hex pairs, in a row of their own.
fn print(rt: &HostRuntime, bytes: &[u8]) -> Result<(), Failure> {
    let mut row = [0u8; 24];
    let end = put_row(bytes, &mut row)?;
    rt.stdout().write_all(&row[..end]).map_err(Failure::Write)
}

fn run(rt: &HostRuntime) -> Result<(), Failure> {
    let mut out = [0u8; 8];
    let count = write_point(0x00, 0x00, &[], &mut out)?;
    prove!(count == 6);
    print(rt, &out[..count])?;
    let heard = receive(fresh_point(), &out[..count])?;
    let Some(verdict) = heard.told else {
        return Err(Failure::Unheard);
    };
    if verdict.event != Event::Frame {
        return Err(Failure::Unheard);
    }
    prove!(verdict.length == 2);
    print(rt, &heard.content[..verdict.length])
}

// Says what failed.
fn tell(rt: &HostRuntime, failure: Failure) {
    let what = match failure {
        Failure::Refused(_) => "a call was refused",
        Failure::Unheard => "no frame was heard",
        Failure::Write(_) => "standard output cannot be written",
    };
    let _ = eprintln!(rt; "example: {what}");
}

fn main(rt: HostRuntime) -> ExitCode {
    match run(&rt) {
        Ok(()) => ExitCode::SUCCESS,
        Err(failure) => {
            tell(&rt, failure);
            ExitCode::FAILURE
        }
    }
}
