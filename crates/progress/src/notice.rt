// The notice of how far an input is read, on one row of a terminal.
ghost use Rattle.std.specs.Prelude.{◌≡◌, ◌+◌, ◌≤◌, ◌∷◌, length};
ghost use Rattle.ground.specs.Laying.{onto};
ghost use Rattle.progress.specs.Notice.{carriage_return, words, places, notice, blanks as blanks_of};

use crate::progress::Progress;
use ground::{Refusal, put};
use text::put_decimal;

// A carriage return, and places for every notice: 20 digits, 2 blanks and 9 letters.
const PLACES: usize = 32;

// A notice, which goes over the one before it.
#[tactic(auto, unfolding(crate::specs::Notice::notice))]
pub fn notice_of(progress: Progress) -> [u8; PLACES]
    ensures { result ≡ notice progress.read }
{
    let mut text = [b' '; PLACES];
    let _ = put_words(progress.read, &mut text);
    text
}

// Puts a carriage return, and what is to be read after it. There is room for both.
fn put_words(read: u64, text: &mut [u8]) -> Result<usize, Refusal>
    requires { 1 + places ≤ length text.old }
    ensures { text.new ≡ onto (carriage_return ∷ words read) text.old }
{
    let begun = put(b"\r", text, 0)?;
    let counted = put_decimal(read, text, begun)?;
    put(b" bytes read", text, counted)
}

// What takes a notice away.
pub fn blanks() -> [u8; PLACES + 1]
    ensures { result ≡ blanks_of }
{
    let mut text = [b' '; PLACES + 1];
    text[0] = b'\r';
    text[PLACES] = b'\r';
    text
}
