// Numbers in a script.

// A number in two bytes, low byte first.
pub(crate) fn number(bytes: [u8; 2]) -> usize {
    usize::from(u16::from_le_bytes(bytes))
}
