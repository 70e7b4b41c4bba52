// How far an input is read, as a notice on the terminal, for the programs; it is taken away before anything else is said there. What the
// terminal and the clock answered is fixed by no statement; `begin` and `show` state what follows from it. And what failed, as a line on
// standard error.
#![tactic(auto)]

mod failure;

ghost use Rattle.std.specs.Prelude.{◌≡◌};
ghost use Rattle.terminal.specs.Asking.{Begun, after_show, Shown};

pub use failure::fail;
use progress::{
    Progress, after_block, after_notice, blanks, fresh_progress, is_due, notice_of, seconds,
};
use std::io::{IsTerminal, Write};
use std::time::Clock;

// A standard stream.
#[derive(Clone, Copy, Debug, PartialEq, Eq)]
pub enum Stream {
    Input,
    Output,
    Error,
}

// Whether a standard stream is a terminal's.
pub fn is_terminal(rt: &HostRuntime, stream: Stream) -> bool {
    match stream {
        Stream::Input => rt.stdin().is_terminal(),
        Stream::Output => rt.stdout().is_terminal(),
        Stream::Error => rt.stderr().is_terminal(),
    }
}

// Nothing is read yet. Notices that are `wanted` are shown where standard error is a terminal.
pub fn begin(rt: &HostRuntime, wanted: bool) -> Progress
    ensures { Begun wanted result }
{
    fresh_progress(wanted && is_terminal(rt, Stream::Error), clock(rt))
}

// With `count` bytes more that are read; shows a notice where it is due.
pub fn show(rt: &HostRuntime, progress: Progress, count: usize) -> Progress
    ensures { Shown progress count result }
{
    if progress.wanted {
        show_at(rt, after_block(progress, count), clock(rt))
    } else {
        progress
    }
}

// Shows a notice where it is due at this time.
fn show_at(rt: &HostRuntime, progress: Progress, clock: u64) -> Progress
    ensures { result ≡ after_show progress clock }
{
    if is_due(progress, clock) {
        say(rt, &notice_of(progress));
        after_notice(progress, clock)
    } else {
        progress
    }
}

// Takes the notice away, if there is one.
pub fn hide(rt: &HostRuntime, progress: Progress) {
    if progress.shown {
        say(rt, &blanks());
    }
}

// Writes to standard error. Where it takes no bytes nothing more can be said.
fn say(rt: &HostRuntime, text: &[u8]) {
    let _ = rt.stderr().write_all(text);
}

// The seconds since 1970; 0 where the clock cannot tell.
fn clock(rt: &HostRuntime) -> u64 {
    let answer = rt
        .since_1970()
        .map_or(-1, |time| i64::try_from(time.as_secs()).unwrap_or(-1));
    seconds(answer)
}
