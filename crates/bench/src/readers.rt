// The point reader.
use crate::buffer::{MOST_ROOM, UNTOUCHED, front, front_mut};
use crate::number::number;
use crate::row::Row;
use link::Event;
use reader::{Answer, Buffer, Last, Parameters, Reader, fresh_reader, to_send};
use request::{CELL_LENGTH, HEADER_LENGTH, SETTINGS_LENGTH, header};

// The bytes of a payload that tell a reader's state.
const STATE_LENGTH: usize = 19;

// A reader with its device header and its two buffers.
#[derive(Clone, Copy)]
pub(crate) struct Device {
    reader: Reader,
    store: [u8; MOST_ROOM],
    out: [u8; MOST_ROOM],
    header: [u8; HEADER_LENGTH],
}

// What a record asks of the reader: an answer, a power-on, both buffers, a fresh reader, or a state or a device header to be put.
#[derive(Clone, Copy)]
pub(crate) enum ReaderOp {
    Answer,
    PowerOn,
    Buffers,
    SetReader,
    NewReader,
    SetHeader,
}

impl Device {
    pub(crate) fn fresh() -> Device {
        Device {
            reader: fresh_reader(true),
            store: [UNTOUCHED; MOST_ROOM],
            out: [UNTOUCHED; MOST_ROOM],
            header: first_header(),
        }
    }

    // Does what the op asks for with this payload, and puts its fields. A payload that is shorter than its fixed part changes nothing.
    pub(crate) fn perform(&mut self, op: ReaderOp, payload: &[u8], row: Row) -> Row {
        match op {
            ReaderOp::Answer => self.answer(payload, row),
            ReaderOp::PowerOn => self.power_on(row),
            ReaderOp::Buffers => row.bytes(&self.out).bytes(&self.store),
            ReaderOp::SetReader => self.set_reader(payload, row),
            ReaderOp::NewReader => self.new_reader(payload, row),
            ReaderOp::SetHeader => self.set_header(payload, row),
        }
    }

    // Payload: event, antenna count, store room, out room, antenna, content.
    fn answer(&mut self, payload: &[u8], row: Row) -> Row {
        let [event, count, s0, s1, o0, o1, rest @ ..] = payload else {
            return row.short();
        };
        let Some((antenna, content)) = rest.split_at_checked(usize::from(*count)) else {
            return row.short();
        };
        let store_room = number([*s0, *s1]);
        let out_room = number([*o0, *o1]);
        let store = front_mut(&mut self.store, store_room);
        let out = front_mut(&mut self.out, out_room);
        let answered = reader::answer(
            self.reader,
            event_of(*event),
            content,
            self.header,
            antenna,
            store,
            out,
        );
        let row = row.refusal(answered.err());
        // Refused, the reader is as it was and sends nothing.
        let answer = answered.unwrap_or(Answer {
            reader: self.reader,
            buffer: Buffer::Out,
            length: 0,
        });
        self.reader = answer.reader;
        put_reader(self.reader, put_answer(answer, store, out, row))
    }

    fn power_on(&mut self, row: Row) -> Row {
        let powered = reader::power_on(self.reader);
        self.reader = powered.unwrap_or(self.reader);
        put_reader(self.reader, row.refusal(powered.err()))
    }

    // Payload: speed, parameter 05, parameter 80, has, identifier, command, length, fast. Puts no field.
    fn set_reader(&mut self, payload: &[u8], row: Row) -> Row {
        let Some(state) = payload.first_chunk() else {
            return row.short();
        };
        self.reader = Reader {
            parameters: parameters(state),
            fast: state[18] != 0,
            memory: memory(state),
        };
        row
    }

    // Payload: fast.
    fn new_reader(&mut self, payload: &[u8], row: Row) -> Row {
        let [fast, ..] = payload else {
            return row.short();
        };
        self.reader = fresh_reader(*fast != 0);
        put_reader(self.reader, row)
    }

    // Payload: header. Puts no field.
    fn set_header(&mut self, payload: &[u8], row: Row) -> Row {
        let Some(header) = payload.first_chunk() else {
            return row.short();
        };
        self.header = *header;
        row
    }
}

// The bytes 00, 01, .. 27: a name of 20 bytes, and five numbers, low byte first.
fn first_header() -> [u8; HEADER_LENGTH] {
    let name = *b"\x00\x01\x02\x03\x04\x05\x06\x07\x08\x09\x0A\x0B\x0C\x0D\x0E\x0F\x10\x11\x12\x13";
    header(
        name, 0x17161514, 0x1B1A1918, 0x1F1E1D1C, 0x23222120, 0x27262524,
    )
}

fn event_of(byte: u8) -> Option<Event> {
    match byte {
        1 => Some(Event::Frame),
        2 => Some(Event::Check),
        3 => Some(Event::Short),
        4 => Some(Event::Long),
        5 => Some(Event::Pair),
        6 => Some(Event::Addr),
        _ => None,
    }
}

fn put_answer(answer: Answer, store: &[u8], out: &[u8], row: Row) -> Row {
    let buffer: &[u8] = match answer.buffer {
        Buffer::Out => b"out",
        Buffer::Store => b"store",
    };
    row.word(buffer)
        .number(answer.length)
        .bytes(to_send(answer.buffer, answer.length, store, out))
}

// The reader's state: the parameters, the last executed command with its length, and whether it is fast.
fn put_reader(reader: Reader, row: Row) -> Row {
    let parameters = reader.parameters;
    let row = row
        .bytes(&[parameters.speed])
        .bytes(&parameters.settings)
        .bytes(&parameters.cell);
    let row = match reader.memory {
        None => row.word(b"- -"),
        Some(last) => row
            .bytes(&[last.identifier, last.command])
            .number(last.length),
    };
    row.word(if reader.fast { b"fast" } else { b"slow" })
}

fn parameters(state: &[u8; STATE_LENGTH]) -> Parameters {
    let mut settings = [0u8; SETTINGS_LENGTH];
    settings.copy_from_slice(&state[1..5]);
    let mut cell = [0u8; CELL_LENGTH];
    cell.copy_from_slice(&state[5..13]);
    Parameters {
        speed: state[0],
        settings,
        cell,
    }
}

fn memory(state: &[u8; STATE_LENGTH]) -> Option<Last> {
    if state[13] == 0 {
        return None;
    }
    Some(Last {
        identifier: state[14],
        command: state[15],
        length: number([state[16], state[17]]),
    })
}
