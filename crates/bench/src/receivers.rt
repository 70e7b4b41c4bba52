// The receivers of the two lines.
use crate::buffer::front;
use crate::number::number;
use crate::row::Row;
use link::{Event, Heard, MASTER, Phase, Receiver, Station, fresh_addressed, fresh_point, receive};
use wire::MOST_CONTENT;

#[derive(Clone, Copy)]
pub(crate) struct Receivers {
    point: Receiver,
    addressed: Receiver,
}

#[derive(Clone, Copy)]
pub(crate) enum Line {
    Point,
    Addressed,
}

// What a record asks of the receivers: one call of a line's, a new station on the addressed line, or a state to be put.
#[derive(Clone, Copy)]
pub(crate) enum ReceiverOp {
    Hear(Line),
    NewStation,
    SetReceiver,
}

impl Receivers {
    pub(crate) fn fresh() -> Receivers {
        Receivers {
            point: fresh_point(),
            addressed: fresh_addressed(MASTER).unwrap(),
        }
    }

    // Does what the op asks for with this payload, and puts its fields. A payload that is shorter than its fixed part changes nothing.
    pub(crate) fn perform(&mut self, op: ReceiverOp, payload: &[u8], row: Row) -> Row {
        match op {
            ReceiverOp::Hear(line) => self.hear(line, payload, row),
            ReceiverOp::NewStation => self.new_station(payload, row),
            ReceiverOp::SetReceiver => self.set(payload, row),
        }
    }

    fn on(&mut self, line: Line) -> &mut Receiver {
        match line {
            Line::Point => &mut self.point,
            Line::Addressed => &mut self.addressed,
        }
    }

    fn hear(&mut self, line: Line, piece: &[u8], row: Row) -> Row {
        let receiver = self.on(line);
        match receive(*receiver, piece) {
            Ok(heard) => {
                *receiver = heard.receiver;
                put_heard(heard, row.refusal(None))
            }
            Err(why) => row.refusal(Some(why)).word(b"NONE").number(0).bytes(&[]),
        }
    }

    // Payload: address. Where it is refused the receiver stays.
    fn new_station(&mut self, payload: &[u8], row: Row) -> Row {
        let [address, ..] = payload else {
            return row.short();
        };
        match fresh_addressed(*address) {
            Ok(receiver) => {
                self.addressed = receiver;
                row.refusal(None)
            }
            Err(refused) => row.refusal(Some(refused.refusal)),
        }
    }

    // Payload: line, address, phase, count, fill. Puts no field.
    fn set(&mut self, payload: &[u8], row: Row) -> Row {
        let [line, address, phase, low, high, fill, ..] = payload else {
            return row.short();
        };
        let (line, station) = match line {
            0 => (Line::Point, Station::Point),
            _ => (Line::Addressed, Station::Addressed(*address)),
        };
        *self.on(line) = Receiver {
            station,
            phase: phase_of(*phase),
            count: number([*low, *high]),
            content: [*fill; MOST_CONTENT],
        };
        row
    }
}

fn put_heard(heard: Heard, row: Row) -> Row {
    let (name, length) = match heard.told {
        Some(verdict) => (name(verdict.event), verdict.length),
        None => (&b"NONE"[..], 0),
    };
    row.word(name)
        .number(heard.taken)
        .bytes(front(&heard.content, length))
}

fn name(event: Event) -> &'static [u8] {
    match event {
        Event::Frame => b"FRAME",
        Event::Check => b"CHECK",
        Event::Short => b"SHORT",
        Event::Long => b"LONG",
        Event::Pair => b"PAIR",
        Event::Addr => b"ADDR",
    }
}

fn phase_of(byte: u8) -> Phase {
    match byte {
        0 => Phase::Outside,
        1 => Phase::Inside,
        _ => Phase::Pending,
    }
}
