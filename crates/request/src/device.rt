// The device header, laid out.
ghost use Rattle.std.specs.Prelude.{◌≡◌, ◌+◌, ◌≤◌, length};
ghost use Rattle.ground.specs.Laying.{laid};
ghost use Rattle.request_spec.specs.Header.{low_first, header as header_of};

use request_spec::{
    FLAGS_AT, HEADER_LENGTH, KIND_AT, NAME_LENGTH, PROTOCOL_AT, SERIAL_AT, VERSION_AT,
};

// The header of a device: its name, then its kind, version, protocol version, serial number and flags, each low byte first.
pub fn header(
    name: [u8; NAME_LENGTH],
    kind: u32,
    version: u32,
    protocol: u32,
    serial: u32,
    flags: u32,
) -> [u8; HEADER_LENGTH]
    ensures { result ≡ header_of name kind version protocol serial flags }
{
    let mut bytes = [0u8; HEADER_LENGTH];
    bytes[..NAME_LENGTH].copy_from_slice(&name);
    lay_number(&mut bytes, KIND_AT, kind);
    lay_number(&mut bytes, VERSION_AT, version);
    lay_number(&mut bytes, PROTOCOL_AT, protocol);
    lay_number(&mut bytes, SERIAL_AT, serial);
    lay_number(&mut bytes, FLAGS_AT, flags);
    bytes
}

// Lays a number's four bytes into `bytes` from the place `at` on.
fn lay_number(bytes: &mut [u8], at: usize, number: u32)
    requires { at + 4 ≤ length bytes.old }
    ensures { bytes.new ≡ laid bytes.old at (low_first number) }
{
    bytes[at..at + 4].copy_from_slice(&number.to_le_bytes());
}
