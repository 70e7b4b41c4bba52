// The point line's master: the reading of replies.
use crate::row::Row;
use master::{data_of, read_reply};
use request::Meaning;

// Payload: identifier, code, count of data, data, reply.
pub(crate) fn put_reading(payload: &[u8], row: Row) -> Row {
    let [identifier, code, count, rest @ ..] = payload else {
        return row.short();
    };
    let Some((data, reply)) = rest.split_at_checked(usize::from(*count)) else {
        return row.short();
    };
    let read = read_reply(*identifier, *code, data, reply);
    let row = row.refusal(read.err());
    match read {
        Err(_) => row.word(b"- -"),
        Ok(Meaning::Ack) => row.word(b"ACK -"),
        Ok(Meaning::Nack(number)) => row.word(b"NACK").number(usize::from(number)),
        Ok(Meaning::Data) => row.word(b"DATA").bytes(data_of(reply)),
    }
}
