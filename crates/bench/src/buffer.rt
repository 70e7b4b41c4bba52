// Buffers, and the parts of them that are lent.

// The length of a buffer, and so the greatest room.
pub(crate) const MOST_ROOM: usize = 600;

// What a buffer holds until a call writes to it.
pub(crate) const UNTOUCHED: u8 = 0xEE;

// The first `length` bytes, or all where there are fewer.
pub(crate) fn front(bytes: &[u8], length: usize) -> &[u8] {
    &bytes[..length.min(bytes.len())]
}

// The same, to be written to.
pub(crate) fn front_mut(bytes: &mut [u8], length: usize) -> &mut [u8] {
    let length = length.min(bytes.len());
    &mut bytes[..length]
}
