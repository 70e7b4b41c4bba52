// The part of one of the two lent buffers that goes to the wire.
ghost use Rattle.std.specs.Prelude.{◌≡◌};
ghost use Rattle.reader_spec.specs.Sending.{buffer_named, buffers_of, front_part, sent};

use reader_spec::Buffer;

// The bytes to send: the first `length` of the buffer that is meant, and none where it is shorter.
#[tactic(auto, unfolding(reader_spec::specs::Sending::sent))]
pub fn to_send<'a>(buffer: Buffer, length: usize, store: &'a [u8], out: &'a [u8]) -> &'a [u8]
    ensures { result.now ≡ sent (buffer_named buffer) length (buffers_of store.now out.now) }
{
    match buffer {
        Buffer::Out => part(out, length),
        Buffer::Store => part(store, length),
    }
}

fn part(bytes: &[u8], length: usize) -> &[u8]
    ensures { result.now ≡ front_part length bytes.now }
{
    bytes.get(..length).unwrap_or_default()
}
