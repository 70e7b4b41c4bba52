// Bytes laid into a buffer.
ghost use Rattle.std.specs.Prelude.{◌≡◌, ◌-◌, length};
ghost use Rattle.ground.specs.Laying.{ended, put as put_of};

use crate::refusal::Refusal;

// Puts all of `bytes` into `out` from the place `at` on, and answers where they end; what stands before and after them stays. Refuses an `out`
// that ends before them (NoRoom).
pub fn put(bytes: &[u8], out: &mut [u8], at: usize) -> Result<usize, Refusal>
    ensures { ended at result out.new ≡ put_of bytes.now out.old at }
{
    if bytes.len() > room(out, at) {
        return Err(Refusal::NoRoom);
    }
    let end = at + bytes.len();
    if bytes.len() > 0 {
        out[at..end].copy_from_slice(bytes);
    }
    Ok(end)
}

// How many bytes of `out` stand from the place `at` on.
pub fn room(out: &[u8], at: usize) -> usize
    ensures { result ≡ length out.now - at }
{
    out.len().saturating_sub(at)
}
