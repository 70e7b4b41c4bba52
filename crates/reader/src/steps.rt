// The call that does the steps of the point reader.
ghost use Rattle.std.specs.Prelude.{◌≡◌, ◌≤◌, length, true, ◌∷◌, List, ℕ, Ok};
ghost use Rattle.link_spec.specs.Events.{named, FRAME};
ghost use Rattle.request_spec.specs.Acceptance.{FitsCommand};
ghost use Rattle.reader_spec.specs.Limits.{room};
ghost use Rattle.reader_spec.specs.State.{state_of};
ghost use Rattle.reader_spec.specs.Sending.{buffers_of};
ghost use Rattle.reader_spec.specs.Answering.{input_of, answer_says, LentWell, nacked as nacked_of, executed as executed_of, framed, is_front, fits as fits_of, Answers};

use crate::asking::asked_by;
use crate::given::{Device, Request};
use crate::memory::find;
use crate::reply::{WRONG_CHECK, write_nack, write_reply};
use crate::values::after_command;
use ground::Refusal;
use link::Event;
use reader_spec::{Answer, Asking, Buffer, LEAST_FRONT, Last, MOST_FRONT, ROOM, Reader};
use reader_state::{is_bad_reader, judge};
use request::{Command, HEADER_LENGTH, MOST_ANTENNA, nack_of};

// Answers what a receiver heard: an event with its content, the check cut off. What is to be sent stands in `out`, on a repeat in
// `store`; `to_send` hands it back. Refuses a reader as `power_on` does (BadState), `store` or `out` under 130 bytes (NoRoom), an
// antenna's answer over 8 (TooLong), and a FRAME or CHECK with fewer than 2 or more than 62 bytes of content (BadRequest), in this
// order; a refusal leaves both buffers as they were.
pub fn answer(
    reader: Reader,
    event: Option<Event>,
    content: &[u8],
    header: [u8; HEADER_LENGTH],
    antenna: &[u8],
    store: &mut [u8],
    out: &mut [u8],
) -> Result<Answer, Refusal>
    ensures { Answers reader (input_of (named event) content.now header antenna.now) (buffers_of store.old out.old) result (buffers_of store.new out.new) }
{
    if is_bad_reader(reader) {
        return Err(Refusal::BadState);
    }
    if store.len() < ROOM || out.len() < ROOM {
        return Err(Refusal::NoRoom);
    }
    if antenna.len() > MOST_ANTENNA {
        return Err(Refusal::TooLong);
    }
    let asking = asked_by(event);
    if !fits(asking, content) {
        return Err(Refusal::BadRequest);
    }
    Ok(match asking {
        Asking::Nothing => sending(reader, Buffer::Out, 0),
        Asking::Wrong => nacking(reader, content[0], WRONG_CHECK, out),
        Asking::Right => answer_frame(reader, content, Device { header, antenna }, store, out),
    })
}

// A frame whose check is right: steps 3 to 6.
fn answer_frame(
    reader: Reader,
    content: &[u8],
    device: Device,
    store: &mut [u8],
    out: &mut [u8],
) -> Answer
    requires { (is_front content.now ≡ true) × LentWell (input_of FRAME content.now device.header device.antenna.now) (buffers_of store.old out.old) }
    ensures { answer_says reader (Ok result) (buffers_of store.new out.new) ≡ framed (state_of reader) (input_of FRAME content.now device.entry.header device.entry.antenna.now) (buffers_of store.old out.old) }
{
    let request = Request {
        identifier: content[0],
        code: content[1],
        data: &content[2..],
    };
    if let Some(length) = find(reader.memory, request.identifier, request.code) {
        return sending(reader, Buffer::Store, length);
    }
    match judge(reader.fast, request.code, request.data) {
        Ok(command) => execute(reader, request, command, device, store, out),
        Err(fault) => nacking(reader, request.identifier, nack_of(fault), out),
    }
}

// Step 6.
fn execute(
    reader: Reader,
    request: Request,
    command: Command,
    device: Device,
    store: &mut [u8],
    out: &mut [u8],
) -> Answer
    requires { FitsCommand command request.«data».now × LentWell (input_of FRAME request.«data».now device.header device.antenna.now) (buffers_of store.old out.old) }
    ensures { answer_says reader (Ok result) (buffers_of store.new out.new) ≡ executed_of (state_of reader) (input_of FRAME (request.entry.identifier ∷ request.entry.code ∷ request.entry.«data».now) device.entry.header device.entry.antenna.now) (buffers_of store.old out.old) command }
{
    let length = write_reply(reader.parameters, request, command, device, out);
    store[..length].copy_from_slice(&out[..length]);
    let reader = Reader {
        parameters: after_command(reader.parameters, command, request.data),
        memory: Some(Last {
            identifier: request.identifier,
            command: request.code,
            length,
        }),
        ..reader
    };
    sending(reader, Buffer::Out, length)
}

// Whether what is asked may come with this content.
fn fits(asking: Asking, content: &[u8]) -> bool
    ensures { result ≡ fits_of asking content.now }
{
    matches!(asking, Asking::Nothing) || is_front(content)
}

// Whether a FRAME or CHECK may carry this content.
fn is_front(content: &[u8]) -> bool
    ensures { result ≡ is_front content.now }
{
    (LEAST_FRONT..=MOST_FRONT).contains(&content.len())
}

// The same reader, and a NACK to send.
fn nacking(reader: Reader, identifier: u8, number: u8, out: &mut [u8]) -> Answer
    requires { room ≤ length out.old }
    ensures { (store : List ℕ) → answer_says reader (Ok result) (buffers_of store out.new) ≡ nacked_of (state_of reader) identifier number (buffers_of store out.old) }
{
    sending(reader, Buffer::Out, write_nack(identifier, number, out))
}

// This reader from now on, and so many bytes of a buffer to send.
fn sending(reader: Reader, buffer: Buffer, length: usize) -> Answer
    ensures { result ≡ record { reader = reader; buffer = buffer; length = length } }
{
    Answer {
        reader,
        buffer,
        length,
    }
}
