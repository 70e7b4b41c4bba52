// Lists a tape: its bytes on standard input, the listing on standard output.
#![tactic(auto)]

ghost use Rattle.std.specs.Prelude.{◌≤◌, IfOk};
ghost use Rattle.tape_spec.specs.Limits.{most_records};

use ground::Refusal;
use progress::Progress;
use std::io::{Error, Read, Write};
use std::process::ExitCode;
use tape::{Tape, fresh_tape, is_over, list, write_header, write_last};
use terminal::{Stream, begin, fail, hide, is_terminal, show};

// How many bytes are read at once at most, and the places for the rows that are put together.
const BLOCK: usize = 65536;

// Why a tape is not listed to its end.
#[derive(Clone, Copy)]
enum Failure {
    Read(Error),
    Write(Error),
    Refused,
}

impl From<Refusal> for Failure {
    fn from(_refusal: Refusal) -> Failure {
        Failure::Refused
    }
}

// Says what failed, and why.
fn tell(rt: &HostRuntime, failure: Failure) {
    match failure {
        Failure::Read(error) => fail(rt, "listing: standard input", error),
        Failure::Write(error) => fail(rt, "listing: standard output", error),
        Failure::Refused => {
            let _ = eprintln!(rt; "listing: the tape was refused");
        }
    }
}

// Writes all of `text`.
fn print(rt: &HostRuntime, text: &[u8]) -> Result<(), Failure> {
    rt.stdout().write_all(text).map_err(Failure::Write)
}

// Lists a chunk that is read, up to where the tape is over; `text` is where the rows are put together.
fn list_chunk(
    rt: &HostRuntime,
    mut tape: Tape,
    chunk: &[u8],
    text: &mut [u8],
) -> Result<Tape, Failure>
    requires { tape.records ≤ most_records }
    ensures { IfOk result (λ t. t.records ≤ most_records) }
{
    let mut taken = 0;
    while taken < chunk.len() && !is_over(tape) {
        let listed = list(tape, &chunk[taken..], text)?;
        print(rt, &text[..listed.written])?;
        tape = listed.tape;
        taken += listed.taken;
    }
    Ok(tape)
}

// No tape is read further than 2^33 - 1 bytes, and a block has one at least.
const MOST_BLOCKS: u64 = 0x2_0000_0000;

// Lists all blocks of a tape; `text` is where the rows are put together.
fn list_blocks(
    rt: &HostRuntime,
    progress: &mut Progress,
    text: &mut [u8],
) -> Result<Tape, Failure> {
    let mut block = [0u8; BLOCK];
    let mut tape = fresh_tape();
    for _ in 0..MOST_BLOCKS {
        let count = rt.stdin().read(&mut block).map_err(Failure::Read)?;
        tape = list_chunk(rt, tape, &block[..count], text)?;
        if count == 0 || is_over(tape) {
            break;
        }
        *progress = show(rt, *progress, count);
    }
    Ok(tape)
}

// Lists a whole tape, with the last row. The notice is taken away before anything else is said.
fn list_tape(rt: &HostRuntime, text: &mut [u8]) -> Result<(), Failure> {
    let mut progress = begin(rt, !is_terminal(rt, Stream::Output));
    let listed = list_blocks(rt, &mut progress, text);
    hide(rt, progress);
    let end = write_last(listed?, text)?;
    print(rt, &text[..end])
}

// Lists standard input.
fn run(rt: &HostRuntime) -> Result<(), Failure> {
    let mut text = [0u8; BLOCK];
    let end = write_header(&mut text)?;
    print(rt, &text[..end])?;
    list_tape(rt, &mut text)
}

fn main(rt: HostRuntime) -> ExitCode {
    match run(&rt) {
        Ok(()) => ExitCode::SUCCESS,
        Err(failure) => {
            tell(&rt, failure);
            ExitCode::FAILURE
        }
    }
}
