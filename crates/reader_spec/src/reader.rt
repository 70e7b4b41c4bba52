// The point reader between two calls, and what a call answers.
use request_spec::{CELL_LENGTH, SETTINGS_LENGTH};

// The values of a reader's parameters.
#[derive(Clone, Copy, Debug, PartialEq, Eq)]
pub struct Parameters {
    pub speed: u8,
    pub settings: [u8; SETTINGS_LENGTH],
    pub cell: [u8; CELL_LENGTH],
}

// A command that was executed: identifier, command, and the length of the reply that the store holds.
#[derive(Clone, Copy, Debug, PartialEq, Eq)]
pub struct Last {
    pub identifier: u8,
    pub command: u8,
    pub length: usize,
}

// A reader between two calls: its three parameters, whether its model has the speeds above 115200 baud, and the last command executed since
// power-on, if any.
#[derive(Clone, Copy, Debug, PartialEq, Eq)]
pub struct Reader {
    pub parameters: Parameters,
    pub fast: bool,
    pub memory: Option<Last>,
}

// What an event asks of a reader: nothing that it answers, or an answer to a frame whose check is wrong, or right.
#[derive(Clone, Copy, Debug, PartialEq, Eq)]
pub enum Asking {
    Nothing,
    Wrong,
    Right,
}

// The two buffers that a reader is lent: the out buffer, which holds a reply as it is written, and the store, which keeps the last executed
// command's.
#[derive(Clone, Copy, Debug, PartialEq, Eq)]
pub enum Buffer {
    Out,
    Store,
}

// What one call answers: the reader for the next call, and the bytes to send, the first `length` of a buffer.
#[derive(Clone, Copy, Debug, PartialEq, Eq)]
pub struct Answer {
    pub reader: Reader,
    pub buffer: Buffer,
    pub length: usize,
}
