// The stations, and the addresses that have names.
pub const MASTER: u8 = 0x00;

pub const BROADCAST: u8 = 0x7F;

pub const LAST_ADDRESS: u8 = 0xFC;

// The point line, or the addressed line as the station with this address hears it.
#[derive(Clone, Copy)]
pub enum Station {
    Point,
    Addressed(u8),
}
