// Reports a tape: its bytes on standard input, the report on standard output once the tape is over.
#![tactic(auto)]

ghost use Rattle.std.specs.Prelude.{◌≡◌, ◌+◌, ◌≤◌, length, take, Ok};
ghost use Rattle.ground.specs.Laying.{laid};
ghost use Rattle.totals_spec.specs.Rows.{sums_row, most_row, report_text, most_text};
ghost use Rattle.totals_spec.specs.Adding.{reported_by};

use ground::Refusal;
use progress::Progress;
use std::io::{Error, Read, Write};
use std::process::ExitCode;
use terminal::{begin, fail, hide, show};
use totals::{
    LineReport, Report, Totals, add, fresh_totals, is_over, report, write_ending, write_sums,
    write_title,
};

// How many bytes are read at once at most.
const BLOCK: usize = 65536;

// Places for the longest report: its title of 45, two rows of 108 and the last row of 16.
const MOST_TEXT: usize = 277;

// Why a tape has no report.
#[derive(Clone, Copy)]
enum Failure {
    Read(Error),
    Write(Error),
    TooLong,
    Refused,
}

impl From<Refusal> for Failure {
    fn from(refusal: Refusal) -> Failure {
        match refusal {
            Refusal::TapeTooLong => Failure::TooLong,
            _ => Failure::Refused,
        }
    }
}

// Says what failed, and why; where the tape is too long a row on standard output says so too.
fn tell(rt: &HostRuntime, failure: Failure) {
    match failure {
        Failure::Read(error) => fail(rt, "report: standard input", error),
        Failure::Write(error) => fail(rt, "report: standard output", error),
        Failure::TooLong => {
            if let Err(error) = rt.stdout().write_all(b"refused 10 TapeTooLong\n") {
                fail(rt, "report: standard output", error);
            }
            let _ = eprintln!(rt;
                "report: the tape goes on after 4294967295 records, the most it may have: report it in parts"
            );
        }
        Failure::Refused => {
            let _ = eprintln!(rt; "report: the tape was refused");
        }
    }
}

// Puts the row of a line at a place of `text`, which has room for the longest; where it ends.
fn put_line(report: LineReport, text: &mut [u8], at: usize) -> usize
    requires { at + most_row ≤ length text.old }
    ensures within { result ≤ at + most_row }
    ensures ends { result ≡ at + length (sums_row report.line report.sums) }
    ensures stands { text.new ≡ laid text.old at (sums_row report.line report.sums) }
{
    at + write_sums(report.line, report.sums, &mut text[at..]).unwrap()
}

// Puts all rows of a report to the front of `text`; where they end.
fn put_report(report: Report, text: &mut [u8]) -> usize
    requires { most_text ≤ length text.old }
    ensures within { result ≤ length text.new }
    ensures stands { take result text.new ≡ report_text (reported_by (Ok report)) }
{
    let title = write_title(text).unwrap();
    let first = put_line(report.first, text, title);
    let second = put_line(report.second, text, first);
    second + write_ending(report.ending, report.records, &mut text[second..]).unwrap()
}

// No tape is read further than 2^33 - 1 bytes, and a block has one at least.
const MOST_BLOCKS: u64 = 0x2_0000_0000;

// Reads all blocks of a tape and adds them up.
fn add_blocks(rt: &HostRuntime, progress: &mut Progress) -> Result<Totals, Failure> {
    let mut block = [0u8; BLOCK];
    let mut totals = fresh_totals();
    for _ in 0..MOST_BLOCKS {
        let count = rt.stdin().read(&mut block).map_err(Failure::Read)?;
        totals = add(totals, &block[..count])?;
        if count == 0 || is_over(totals.tape) {
            break;
        }
        *progress = show(rt, *progress, count);
    }
    Ok(totals)
}

// Reports a whole tape, once all of its report is there. The notice is taken away before anything else is said.
fn report_tape(rt: &HostRuntime) -> Result<(), Failure> {
    let mut progress = begin(rt, true);
    let added = add_blocks(rt, &mut progress);
    hide(rt, progress);
    let mut text = [0u8; MOST_TEXT];
    let end = put_report(report(added?)?, &mut text);
    rt.stdout().write_all(&text[..end]).map_err(Failure::Write)
}

fn main(rt: HostRuntime) -> ExitCode {
    match report_tape(&rt) {
        Ok(()) => ExitCode::SUCCESS,
        Err(failure) => {
            tell(&rt, failure);
            ExitCode::FAILURE
        }
    }
}
