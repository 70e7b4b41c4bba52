// The row of an event.
ghost use Rattle.std.specs.Prelude.{◌≡◌, Some, Ok};
ghost use Rattle.ground.specs.Laying.{ended, put as put_of};
ghost use Rattle.link_spec.specs.Events.{named};
ghost use Rattle.link_spec.specs.Receiving.{saying};
ghost use Rattle.tape_spec.specs.Rows.{letter as letter_of, row, name_of, heard_row};
ghost use Rattle.rows.specs.Heads.{head_of};

use ground::{Refusal, put, room};
use link_spec::{Event, Heard};
use tape_spec::Line;
use text::{put_decimal, put_pairs};

// Places for the longest head of a row: 10 digits, a letter, a name of 5 letters and 3 blanks.
const MOST_HEAD: usize = 19;

// Puts the row of what a receiver heard into `out` from the place `at` on, and answers where it ends; where nothing happened nothing is put. Refuses an
// `out` that ends before the row (NoRoom).
pub fn put_heard(
    number: u32,
    line: Line,
    heard: Heard,
    out: &mut [u8],
    at: usize,
) -> Result<usize, Refusal>
    ensures { ended at result out.new ≡ put_of (heard_row number line (saying heard.receiver (Ok heard))) out.old at }
{
    let Some(told) = heard.told else {
        return Ok(at);
    };
    // only a frame's content is shown
    let shown = match told.event {
        Event::Frame => told.length.min(heard.content.len()),
        _ => 0,
    };
    put_row(number, line, told.event, &heard.content[..shown], out, at)
}

// Puts a row with the name of an event, and the content that it shows, and answers where it ends. Refuses an `out` that ends before the row (NoRoom).
fn put_row(
    number: u32,
    line: Line,
    event: Event,
    content: &[u8],
    out: &mut [u8],
    at: usize,
) -> Result<usize, Refusal>
    ensures { ended at result out.new
        ≡ put_of (row number line (name_of (named (Some event))) content.now) out.old at }
{
    let mut head = [0u8; MOST_HEAD];
    let length = lay_head(number, line, event, &mut head)?;
    let space = room(out, at);
    // after its head a row has two letters at least, and three for each byte that it shows
    if space < length + 2 || content.len() > (space - length) / 3 {
        return Err(Refusal::NoRoom);
    }
    let begun = put(&head[..length], out, at)?;
    let shown = put_pairs(content, out, begun)?;
    put(b"\n", out, shown)
}

// Lays what a row begins with, its number, the line's letter and the event's name, to the front of `head`, and answers its length.
fn lay_head(
    number: u32,
    line: Line,
    event: Event,
    head: &mut [u8; MOST_HEAD],
) -> Result<usize, Refusal>
    ensures { ended 0 result head.new ≡ put_of (head_of number line (named (Some event))) head.old 0 }
{
    let counted = put_decimal(number as u64, head, 0)?;
    let lettered = put(letter(line), head, counted)?;
    put(name(event), head, lettered)
}

// P or A, between blanks.
#[tactic(auto, unfolding(text::specs::Ascii::ascii, tape_spec::specs::Rows::letter))]
fn letter(line: Line) -> &'static [u8]
    ensures { result.now ≡ letter_of line }
{
    match line {
        Line::Point => b" P ",
        Line::Addressed => b" A ",
    }
}

// The name of an event, and the blank after it.
#[tactic(auto, unfolding(text::specs::Ascii::ascii, tape_spec::specs::Rows::name_of))]
fn name(event: Event) -> &'static [u8]
    ensures { result.now ≡ name_of (named (Some event)) }
{
    match event {
        Event::Frame => b"FRAME ",
        Event::Check => b"CHECK ",
        Event::Short => b"SHORT ",
        Event::Long => b"LONG ",
        Event::Pair => b"PAIR ",
        Event::Addr => b"ADDR ",
    }
}
