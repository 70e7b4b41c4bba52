// The writers of frames and of typed requests. A writer's buffer is fresh for each record, and the payload begins with its room.
use crate::buffer::{MOST_ROOM, UNTOUCHED, front_mut};
use crate::number::number;
use crate::row::Row;
use ground::Refusal;
use link::{write_addressed, write_point};
use request::write_request;

#[derive(Clone, Copy)]
pub(crate) enum Writer {
    Point,
    Addressed,
    Request,
}

// Puts what the writer answered, and the buffer that it was lent.
pub(crate) fn put_written(writer: Writer, payload: &[u8], row: Row) -> Row {
    let [low, high, payload @ ..] = payload else {
        return row.short();
    };
    let mut buffer = [UNTOUCHED; MOST_ROOM];
    let lent = front_mut(&mut buffer, number([*low, *high]));
    match write(writer, payload, lent) {
        None => row.short(),
        Some(written) => row.counted(written).bytes(lent),
    }
}

// What the writer answered, unless the payload is shorter than its fixed part: identifier, command or code, and data; before them the address
// on the addressed line.
fn write(writer: Writer, payload: &[u8], out: &mut [u8]) -> Option<Result<usize, Refusal>> {
    let written = match (writer, payload) {
        (Writer::Point, [identifier, command, data @ ..]) => {
            write_point(*identifier, *command, data, out)
        }
        (Writer::Addressed, [address, identifier, command, data @ ..]) => {
            write_addressed(*address, *identifier, *command, data, out)
        }
        (Writer::Request, [identifier, code, data @ ..]) => {
            write_request(*identifier, *code, data, out)
        }
        _ => return None,
    };
    Some(written)
}
