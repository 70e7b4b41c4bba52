// A tape's bytes in, the listing's text out: header row, a row for each event chunk by chunk, last row.
#![tactic(auto)]

mod chunk;
mod run;

pub use chunk::list;
pub use ends::{write_header, write_last};
pub use reel::{fresh_tape, is_over};
pub use tape_spec::{LEAST_ROOM, Listed, MOST_RECORDS, Tape};
