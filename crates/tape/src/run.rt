// Records in a row on one line, heard together.
ghost use Rattle.std.specs.Prelude.{◌≡◌, false, ◌+◌, ◌-◌, ◌≤◌, ◌<◌, length, take};
ghost use Rattle.link_spec.specs.Receiving.{bad_receiver};
ghost use Rattle.tape_spec.specs.Limits.{most_records};
ghost use Rattle.tape.specs.Running.{Gathered, left, run_left, running, RunHeard as HeardOf};

use link::{Receiver, receive};
use reel::kind_of;
use rows::put_heard;
use tape_spec::{LEAST_ROOM, Line, MOST_RECORDS};

// The receiver after the records that were heard, their count, and where their rows end.
#[derive(Clone, Copy)]
pub(crate) struct Ran {
    pub(crate) receiver: Receiver,
    pub(crate) count: usize,
    pub(crate) end: usize,
}

// Hears the body at the front of `chunk` and those of the whole records of the same kind right after it, as many as `piece` holds and a
// tape may, and puts their rows while there is room for another.
pub(crate) fn run(
    line: Line,
    receiver: Receiver,
    records: u32,
    chunk: &[u8],
    piece: &mut [u8],
    out: &mut [u8],
    at: usize,
) -> Ran
    requires receiver_good { bad_receiver receiver ≡ false }
    requires record_permitted { records < most_records }
    requires chunk_some { 0 < length chunk.now }
    requires piece_some { 0 < length piece.old }
    requires at_in_bounds { at ≤ length out.old }
    ensures { HeardOf line receiver records chunk.now out.old at (left result out.new) }
{
    let most = piece.len().min((MOST_RECORDS - records) as usize);
    let count = gather(kind_of(line), most, chunk, piece);
    hear(line, receiver, records, &piece[..count], out, at)
}

// Gathers the bodies into `piece`, at most `most`, and answers how many there are.
fn gather(kind: u8, most: usize, chunk: &[u8], piece: &mut [u8]) -> usize
    requires chunk_some { 0 < length chunk.now }
    requires most_some { 0 < most }
    requires most_in_bounds { most ≤ length piece.old }
    ensures within { result ≤ length piece.new }
    ensures gathered { Gathered kind most chunk.now (take result piece.new) }
{
    // a body stands at every other place, from the first on
    let limit = most.min(chunk.len().div_ceil(2));
    piece[0] = chunk[0];
    let mut count: usize = 1;
    while count < limit && chunk[2 * count - 1] == kind {
        piece[count] = chunk[2 * count];
        count += 1;
    }
    count
}

// Hears bodies, and puts their rows while there is room for another.
fn hear(
    line: Line,
    mut receiver: Receiver,
    records: u32,
    bodies: &[u8],
    out: &mut [u8],
    at: usize,
) -> Ran
    requires receiver_good { bad_receiver receiver ≡ false }
    requires bodies_permitted { records + length bodies.now ≤ most_records }
    requires at_in_bounds { at ≤ length out.old }
    ensures { left result out.new
        ≡ run_left (running (length out.old - at) line records receiver bodies.now) out.old at }
{
    let mut count: usize = 0;
    let mut end = at;
    while count < bodies.len() && out.len() - end >= LEAST_ROOM {
        let heard = receive(receiver, &bodies[count..]).unwrap();
        receiver = heard.receiver;
        count += heard.taken;
        end = put_heard(records + (count - 1) as u32, line, heard, out, end).unwrap();
    }
    Ran {
        receiver,
        count,
        end,
    }
}
