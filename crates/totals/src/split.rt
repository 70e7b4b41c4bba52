// A part of a tape, split into what was heard on either line.
ghost use Rattle.std.specs.Prelude.{◌≡◌, false, ◌&&◌, [], ◌+◌, ◌*◌, ◌≤◌, eqb, length, take};
ghost use Rattle.tape_spec.specs.Limits.{most_records};
ghost use Rattle.tape_spec.specs.Taping.{awaits_body};
ghost use Rattle.totals.specs.Splitting.{parted_in, split_on};

use reel::{after_kind, kind_of};
use tape_spec::{Line, MOST_RECORDS, Next};

// The records after a part, what its next byte is, and how many bytes were heard on either line.
#[derive(Clone, Copy)]
pub(crate) struct Parted {
    pub(crate) records: u32,
    pub(crate) next: Next,
    pub(crate) point: usize,
    pub(crate) addressed: usize,
}

// Lays the bytes that were heard on either line to the front of `point` and of `addressed`, which have room for them.
pub(crate) fn split(
    records: u32,
    next: Next,
    part: &[u8],
    point: &mut [u8],
    addressed: &mut [u8],
) -> Parted
    requires permitted { (awaits_body next && eqb records most_records) ≡ false }
    requires point_room { length part.now ≤ 2 * length point.old }
    requires addressed_room { length part.now ≤ 2 * length addressed.old }
    ensures point_within { result.point ≤ length point.new }
    ensures addressed_within { result.addressed ≤ length addressed.new }
    ensures heard { parted_in result point.new addressed.new ≡ split_on records next part.now [] [] }
{
    let none = Parted {
        records,
        next,
        point: 0,
        addressed: 0,
    };
    let Some((&body, rest)) = part.split_first() else {
        return none;
    };
    match next {
        Next::Kind => split_records(records, part, point, 0, addressed, 0),
        Next::Body(Line::Point) => {
            point[0] = body;
            split_records(records + 1, rest, point, 1, addressed, 0)
        }
        Next::Body(Line::Addressed) => {
            addressed[0] = body;
            split_records(records + 1, rest, point, 0, addressed, 1)
        }
        Next::Bad | Next::Full => none,
    }
}

// Splits the rest of a part whose next byte is a kind, after `on_point` and `on_addressed` bytes of the lines: whole records as long as they
// are known and permitted, and then the kind, if one is left, after which either nothing stands or nothing is read.
fn split_records(
    records: u32,
    rest: &[u8],
    point: &mut [u8],
    on_point: usize,
    addressed: &mut [u8],
    on_addressed: usize,
) -> Parted
    requires point_room { 2 * on_point + length rest.now ≤ 2 * length point.old + 1 }
    requires addressed_room { 2 * on_addressed + length rest.now ≤ 2 * length addressed.old + 1 }
    ensures point_within { result.point ≤ length point.new }
    ensures addressed_within { result.addressed ≤ length addressed.new }
    ensures heard { parted_in result point.new addressed.new
        ≡ split_on records Next.Kind rest.now (take on_point point.old) (take on_addressed addressed.old) }
{
    let limit = ((MOST_RECORDS - records) as usize).min(rest.len() / 2);
    let point_kind = kind_of(Line::Point);
    let addressed_kind = kind_of(Line::Addressed);
    let mut on_point = on_point;
    let mut on_addressed = on_addressed;
    let mut count: usize = 0;
    while count < limit {
        let kind = rest[2 * count];
        let body = rest[2 * count + 1];
        if kind == point_kind {
            point[on_point] = body;
            on_point += 1;
        } else if kind == addressed_kind {
            addressed[on_addressed] = body;
            on_addressed += 1;
        } else {
            break;
        }
        count += 1;
    }
    let records = records + count as u32;
    let next = if 2 * count < rest.len() {
        after_kind(records, rest[2 * count])
    } else {
        Next::Kind
    };
    Parted {
        records,
        next,
        point: on_point,
        addressed: on_addressed,
    }
}
