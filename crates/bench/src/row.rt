// The row that a record writes.
use crate::buffer::{MOST_ROOM, front};
use ground::{Refusal, number, put};
use std::io;
use std::io::Write;
use text::{put_decimal, put_pairs};

// Room for the longest row: an op, the reader's two buffers, each with a blank before it and three letters for each byte but the last, which
// has two, and the row's end.
const MOST_LETTERS: usize = 2 + 2 * (3 * MOST_ROOM) + 1;

// The row's text so far, the first `length` letters. It goes in by value and comes back with a field more: the prover follows that in two
// thirds of the time that a lent buffer and a place in it take.
#[derive(Clone, Copy)]
pub(crate) struct Row {
    letters: [u8; MOST_LETTERS],
    length: usize,
}

impl Row {
    pub(crate) fn empty() -> Row {
        Row {
            letters: [0u8; MOST_LETTERS],
            length: 0,
        }
    }

    // A record's row begins with its op.
    pub(crate) fn of_op(code: u8) -> Row {
        Row::empty().with_pairs(&[code])
    }

    // With these letters more. What has no room is left out.
    pub(crate) fn with(mut self, more: &[u8]) -> Row {
        let end = self.length;
        self.length = put(more, &mut self.letters, end).unwrap_or(end);
        self
    }

    // With these bytes more, as hex pairs.
    fn with_pairs(mut self, bytes: &[u8]) -> Row {
        let end = self.length;
        self.length = put_pairs(bytes, &mut self.letters, end).unwrap_or(end);
        self
    }

    // With a number more.
    fn with_decimal(mut self, n: u64) -> Row {
        let end = self.length;
        self.length = put_decimal(n, &mut self.letters, end).unwrap_or(end);
        self
    }

    // With a field more.
    pub(crate) fn word(self, word: &[u8]) -> Row {
        self.with(b" ").with(word)
    }

    pub(crate) fn number(self, n: usize) -> Row {
        self.with(b" ").with_decimal(n as u64)
    }

    pub(crate) fn bytes(self, bytes: &[u8]) -> Row {
        self.with(b" ").with_pairs(bytes)
    }

    // A number in two bytes, as four hex digits.
    pub(crate) fn register(self, value: u16) -> Row {
        let [high, low] = value.to_be_bytes();
        self.bytes(&[high]).with_pairs(&[low])
    }

    // The number of a refusal; 0 for none.
    pub(crate) fn refusal(self, refusal: Option<Refusal>) -> Row {
        self.number(usize::from(number(refusal)))
    }

    // What a call counted; 0 where it refused.
    pub(crate) fn counted(self, counted: Result<usize, Refusal>) -> Row {
        self.refusal(counted.err()).number(counted.unwrap_or(0))
    }

    // A payload is shorter than its fixed part.
    pub(crate) fn short(self) -> Row {
        self.word(b"short")
    }

    // Ends the row and writes it.
    pub(crate) fn print(self, rt: &HostRuntime) -> io::Result<()> {
        let row = self.with(b"\n");
        rt.stdout().write_all(front(&row.letters, row.length))
    }
}
