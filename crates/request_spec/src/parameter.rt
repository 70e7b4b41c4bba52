// The reader's parameters.

// The interface speed (code 02), the reader's settings (05), the authorization cell (80).
#[derive(Clone, Copy, Debug, PartialEq, Eq)]
pub enum Parameter {
    Speed,
    Settings,
    Cell,
}

pub const SETTINGS_LENGTH: usize = 4;

pub const CELL_LENGTH: usize = 8;
