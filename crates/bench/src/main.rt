// Reads a script from standard input and writes one row for each record of it: the calls of the library, tried on any input. docs/BENCH.md
// says what a script is.
#![tactic(auto)]

mod bench;
mod buffer;
mod masters;
mod number;
mod op;
mod readers;
mod receivers;
mod row;
mod script;
mod values;
mod writers;

use bench::Bench;
use buffer::front;
use row::Row;
use script::{Ending, read_record};
use std::io::Error;
use std::process::ExitCode;
use terminal::fail;

// Room for the longest payload.
const SPACE: usize = 65536;

// Why not all is read and written.
#[derive(Clone, Copy)]
enum Failure {
    Read(Error),
    Write(Error),
    TooLong,
}

// Says what failed, and why.
fn tell(rt: &HostRuntime, failure: Failure) {
    match failure {
        Failure::Read(error) => fail(rt, "bench: standard input", error),
        Failure::Write(error) => fail(rt, "bench: standard output", error),
        Failure::TooLong => {
            let _ = eprintln!(rt;
                "bench: the script goes on after the most records that can be counted"
            );
        }
    }
}

fn main(rt: HostRuntime) -> ExitCode {
    let mut space = [0u8; SPACE];
    match run(&rt, &mut space) {
        Ok(()) => ExitCode::SUCCESS,
        Err(failure) => {
            tell(&rt, failure);
            ExitCode::FAILURE
        }
    }
}

// Does the records of the script, with `space` for a payload, and writes their rows, and then the last row.
fn run(rt: &HostRuntime, space: &mut [u8]) -> Result<(), Failure> {
    let mut bench = Bench::fresh();
    // A proved loop has to end; no script has as many records.
    for records in 0..usize::MAX {
        let row = match read_record(rt, space) {
            Ok(record) => bench.perform(
                record.op,
                front(space, record.length),
                Row::of_op(record.code),
            ),
            Err(ending) => return print(rt, last(ending, records)?),
        };
        print(rt, row)?;
    }
    Err(Failure::TooLong)
}

// The last row, after this many records. Where a read failed there is none.
fn last(ending: Ending, records: usize) -> Result<Row, Failure> {
    let word: &[u8] = match ending {
        Ending::End => b"end",
        Ending::Cut => b"cut",
        Ending::Bad => b"bad",
        Ending::Failed(error) => return Err(Failure::Read(error)),
    };
    Ok(Row::empty().with(word).number(records))
}

fn print(rt: &HostRuntime, row: Row) -> Result<(), Failure> {
    row.print(rt).map_err(Failure::Write)
}
