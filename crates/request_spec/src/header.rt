// The device header: how long it is, and where its numbers stand.
pub const NAME_LENGTH: usize = 20;

const NUMBER_LENGTH: usize = 4;

// Where each number stands: one after the other, after the name.
pub const KIND_AT: usize = NAME_LENGTH;

pub const VERSION_AT: usize = KIND_AT + NUMBER_LENGTH;

pub const PROTOCOL_AT: usize = VERSION_AT + NUMBER_LENGTH;

pub const SERIAL_AT: usize = PROTOCOL_AT + NUMBER_LENGTH;

pub const FLAGS_AT: usize = SERIAL_AT + NUMBER_LENGTH;

pub const HEADER_LENGTH: usize = FLAGS_AT + NUMBER_LENGTH;
