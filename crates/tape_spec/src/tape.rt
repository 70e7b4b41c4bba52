// A tape under way, and what a call on one of its chunks answers.
use link_spec::Receiver;

// The line on which a byte was heard: the point line, or an addressed line as its master hears it.
#[derive(Clone, Copy)]
pub enum Line {
    Point,
    Addressed,
}

// What the next byte of a tape is: a record's kind, its body, or nothing that is read, since an unknown kind came, or a byte after the last
// permitted record.
#[derive(Clone, Copy)]
pub enum Next {
    Kind,
    Body(Line),
    Bad,
    Full,
}

#[derive(Clone, Copy)]
pub struct Receivers {
    pub point: Receiver,
    pub addressed: Receiver,
}

// A tape between two calls: the whole records so far, what the next byte is, and the receivers of both lines.
#[derive(Clone, Copy)]
pub struct Tape {
    pub records: u32,
    pub next: Next,
    pub receivers: Receivers,
}

// What one call listed: the tape for the next call, how many bytes of the chunk were taken, and how many of the buffer were written.
#[derive(Clone, Copy)]
pub struct Listed {
    pub tape: Tape,
    pub taken: usize,
    pub written: usize,
}

// How a tape ends.
#[derive(Clone, Copy)]
pub enum Ending {
    End,
    Cut,
    Bad,
    Full,
}
