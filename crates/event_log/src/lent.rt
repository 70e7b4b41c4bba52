// The log lent: each function calls the one by value, and puts the log that it answers back.
ghost use Rattle.std.specs.Prelude.{◌≡◌};
ghost use Rattle.link_spec.specs.Events.{named};
ghost use Rattle.event_log_spec.specs.Appending.{Appends};
ghost use Rattle.event_log_spec.specs.Answering.{input_of, Answers};

use crate::replies::answered;
use crate::ring::appended;
use event_log_spec::{BODY_LENGTH, Log};
use ground::Refusal;
use link::Event;

// Makes a new entry with this body. It waits; a full log drops the oldest. Refuses a bad log (BadState), and then leaves it as it was.
pub fn append(log: &mut Log, body: [u8; BODY_LENGTH]) -> Result<(), Refusal>
    ensures { Appends log.old body result log.new }
{
    *log = appended(*log, body)?;
    Ok(())
}

// Answers what a receiver of the addressed line heard: an event with its content, the check cut off. So many bytes at the front of `out` are to be
// sent; none to an event other than FRAME. Refuses a bad log (BadState), `out` under 130 bytes (NoRoom), and a FRAME with fewer than 3 or more than
// 63 bytes of content (BadRequest), in this order; a refusal leaves the log and `out` as they were.
pub fn answer(
    log: &mut Log,
    event: Option<Event>,
    content: &[u8],
    out: &mut [u8],
) -> Result<usize, Refusal>
    ensures { Answers log.old (input_of (named event) content.now) out.old result log.new out.new }
{
    let answered = answered(*log, event, content, out)?;
    *log = answered.log;
    Ok(answered.count)
}
