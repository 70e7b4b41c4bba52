// The answer to what a receiver heard, by value.
ghost use Rattle.std.specs.Prelude.{◌≡◌, true, false, ◌≤◌, length};
ghost use Rattle.wire_spec.specs.Writing.{after, putting};
ghost use Rattle.link_spec.specs.Events.{named, FRAME};
ghost use Rattle.event_log_spec.specs.Limits.{room};
ghost use Rattle.event_log_spec.specs.Log.{bad_log};
ghost use Rattle.event_log_spec.specs.Doing.{reply_of};
ghost use Rattle.event_log_spec.specs.Answering.{input_of, is_front, reply_content, answered_as, framed, answered_to};

use crate::doing::{doing, waiting_after};
use crate::ring::{is_bad, oldest_waiting};
use event_log_spec::{Answered, Doing, LEAST_FRONT, Log, MOST_FRONT, ROOM};
use ground::Refusal;
use link::{Event, MASTER, write_addressed};
use request_spec::{ACK, SIGN};

// Answers what a receiver heard: an event with its content, the check cut off. Only a FRAME has an answer. Refuses a bad log (BadState), `out`
// under 130 bytes (NoRoom), and a FRAME with fewer than 3 or more than 63 bytes of content (BadRequest), in this order.
#[tactic(auto, unfolding(event_log_spec::specs::Answering::answered_to))]
pub(crate) fn answered(
    log: Log,
    event: Option<Event>,
    content: &[u8],
    out: &mut [u8],
) -> Result<Answered, Refusal>
    ensures { answered_as log result out.new ≡ answered_to log (input_of (named event) content.now) out.old }
{
    if is_bad(&log) {
        return Err(Refusal::BadState);
    }
    if out.len() < ROOM {
        return Err(Refusal::NoRoom);
    }
    if event != Some(Event::Frame) {
        return Ok(Answered { count: 0, log });
    }
    if !(LEAST_FRONT..=MOST_FRONT).contains(&content.len()) {
        return Err(Refusal::BadRequest);
    }
    answer_frame(log, content, out)
}

// A FRAME: what it asks is done, and the reply written.
fn answer_frame(log: Log, content: &[u8], out: &mut [u8]) -> Result<Answered, Refusal>
    requires { (bad_log log ≡ false) × (is_front content.now ≡ true) × (room ≤ length out.old) }
    ensures { answered_as log result out.new ≡ framed log (input_of FRAME content.now) out.old }
{
    let code = content[2];
    let doing = doing(code, &content[3..], log.waiting);
    let count = write_reply(&log, content[1], code, doing, out)?;
    let log = Log {
        waiting: waiting_after(log.held, log.waiting, doing),
        ..log
    };
    Ok(Answered { count, log })
}

// Writes the reply to the front of `out`, to the master's address.
fn write_reply(
    log: &Log,
    identifier: u8,
    code: u8,
    doing: Doing,
    out: &mut [u8],
) -> Result<usize, Refusal>
    requires { (bad_log log.now ≡ false) × (room ≤ length out.old) }
    ensures { after result out.new ≡ putting (reply_content identifier code (reply_of log.now doing)) out.old }
{
    match doing {
        Doing::Read => write_addressed(MASTER, identifier, code, &oldest_waiting(log), out),
        Doing::Delete | Doing::Restore | Doing::Clear => write_addressed(
            MASTER,
            identifier,
            SIGN,
            &[ACK],
            out,
        ),
        Doing::Nack(number) => write_addressed(MASTER, identifier, SIGN, &[number], out),
    }
}
