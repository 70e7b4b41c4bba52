// What a reply says to the master.

// The sign of an ACK or a NACK: it stands in place of a command, and one byte of data follows, 55 or the NACK's number.
pub const SIGN: u8 = 0x2A;

pub const ACK: u8 = 0x55;

// What a reply says. Its data is what `master::data_of` hands back.
#[derive(Clone, Copy, Debug, PartialEq, Eq)]
pub enum Meaning {
    Ack,
    Nack(u8),
    Data,
}
