// The sums of each line of a tape, and the report that is made of them.
use tape_spec::{Ending, Line, Tape};

// What a line has so far: frames listed, bytes heard, bytes inside the images of the listed frames, and bytes reserved for these.
#[derive(Clone, Copy)]
pub struct Sums {
    pub frames: u64,
    pub heard: u64,
    pub inside: u64,
    pub reserved: u64,
}

// A tape between two calls, and the sums of both lines.
#[derive(Clone, Copy)]
pub struct Totals {
    pub tape: Tape,
    pub point: Sums,
    pub addressed: Sums,
}

// A line's part of a report; the difference is what was reserved less what was heard.
#[derive(Clone, Copy)]
pub struct LineReport {
    pub line: Line,
    pub sums: Sums,
    pub difference: i64,
}

// Both lines, the one that was heard more first, how the tape ended, and its whole records.
#[derive(Clone, Copy)]
pub struct Report {
    pub first: LineReport,
    pub second: LineReport,
    pub ending: Ending,
    pub records: u32,
}
