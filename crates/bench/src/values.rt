// Values of bytes: the length of their image as a content, and the check values.
use crate::row::Row;
use checks::{fcs, residue, sum};
use wire::image_length;

#[derive(Clone, Copy)]
pub(crate) enum Value {
    ImageLength,
    Fcs,
    Sum,
}

pub(crate) fn put_value(value: Value, bytes: &[u8], row: Row) -> Row {
    match value {
        Value::ImageLength => row.counted(image_length(bytes)),
        // The FCS of the bytes, and the register not inverted.
        Value::Fcs => row.register(fcs(bytes)).register(residue(bytes)),
        Value::Sum => row.bytes(&[sum(bytes)]),
    }
}
