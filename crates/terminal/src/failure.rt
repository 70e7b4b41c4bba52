// What failed and why, as a line on standard error.
use ground::put;
use std::fmt;
use std::fmt::Write;
use std::io::Error;
use std::str::from_utf8;

// Places for an error as std prints it: the system's longest text has 49 letters, and its number stands behind it.
const PLACES: usize = 128;

// What an error prints, as far as there is room for it: the first `length` letters.
#[derive(Drop)]
struct Said {
    letters: [u8; PLACES],
    length: usize,
}

impl Write for Said {
    fn write_str(&mut self, part: &str) -> fmt::Result {
        self.length = put(part.as_bytes(), &mut self.letters, self.length).unwrap_or(self.length);
        Ok(())
    }
}

impl Said {
    // What is said of a read or a write that failed.
    fn of(error: Error) -> Said {
        let mut said = Said {
            letters: [0u8; PLACES],
            length: 0,
        };
        let _ = write!(said, "{error}");
        said
    }

    // The system's text, without the number that std puts behind it.
    fn text(&self) -> &str {
        let whole = from_utf8(&self.letters[..self.length.min(PLACES)]).unwrap_or("");
        whole
            .rsplit_once(" (os error ")
            .map_or(whole, |(text, _)| text)
    }
}

// Writes a line to standard error: what failed, a colon and why. Where standard error takes no bytes nothing more can be said.
pub fn fail(rt: &HostRuntime, what: &str, error: Error) {
    let said = Said::of(error);
    let text = said.text();
    let _ = eprintln!(rt; "{what}: {text}");
}
