// Bytes as upper-case hex pairs.
ghost use Rattle.std.specs.Prelude.{◌≡◌, ◌+◌, ◌*◌, ◌≤◌, ◌<◌, ◌∷◌, length};
ghost use Rattle.ground.specs.Laying.{laid, ended, put as put_of};
ghost use Rattle.text.specs.Hex.{digit as digit_of, pair, pairs};

use ground::{Refusal, put, room};

// Puts the bytes as hex pairs joined by dots, `-` for none, into `out` from the place `at` on. Refuses an `out` that ends before them
// (NoRoom).
pub fn put_pairs(bytes: &[u8], out: &mut [u8], at: usize) -> Result<usize, Refusal>
    ensures { ended at result out.new ≡ put_of (pairs bytes.now) out.old at }
{
    let Some((first, others)) = bytes.split_first() else {
        return put(b"-", out, at);
    };
    // three places for each pair, less one
    if bytes.len() > (room(out, at) + 1) / 3 {
        return Err(Refusal::NoRoom);
    }
    Ok(lay_pairs(*first, others, out, at))
}

// Lays the hex pairs of the bytes, of which there is one at least, into `out` from the place `at` on, and answers the place after them.
fn lay_pairs(first: u8, others: &[u8], out: &mut [u8], at: usize) -> usize
    requires { at + 2 + 3 * length others.now ≤ length out.old }
    ensures { (result ≡ at + 2 + 3 * length others.now) × (out.new ≡ laid out.old at (pairs (first ∷ others.now))) }
{
    lay_pair(first, out, at);
    let mut end = at + 2;
    for &byte in others {
        out[end] = b'.';
        lay_pair(byte, out, end + 1);
        end += 3;
    }
    end
}

// Lays one pair into `out` at the place `at`.
fn lay_pair(byte: u8, out: &mut [u8], at: usize)
    requires { at + 2 ≤ length out.old }
    ensures { out.new ≡ laid out.old at (pair byte) }
{
    out[at] = digit(byte / 16);
    out[at + 1] = digit(byte % 16);
}

#[tactic(auto, unfolding(crate::specs::Hex::digit))]
fn digit(n: u8) -> u8
    requires { n < 16 }
    ensures { result ≡ digit_of n }
{
    if n < 10 { b'0' + n } else { b'A' - 10 + n }
}
