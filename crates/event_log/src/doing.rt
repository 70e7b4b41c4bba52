// What a request makes the log do.
ghost use Rattle.std.specs.Prelude.{◌≡◌};
ghost use Rattle.event_log_spec.specs.Doing.{unless_data, unless_none, doing as doing_of, waiting_after};

use event_log_spec::{CLEAR, DELETE, Doing, READ, RESTORE};

// The NACKs to an unknown code, to data, and where nothing waits.
const UNKNOWN: u8 = 2;

const DATA: u8 = 3;

const NOTHING: u8 = 4;

// What a request with this code and data makes a log do in which so many wait.
#[tactic(auto, unfolding(event_log_spec::specs::Doing::doing))]
pub(crate) fn doing(code: u8, data: &[u8], waiting: usize) -> Doing
    ensures { result ≡ doing_of code «data».now waiting }
{
    match code {
        READ => unless_data(data, unless_none(waiting, Doing::Read)),
        DELETE => unless_data(data, unless_none(waiting, Doing::Delete)),
        RESTORE => unless_data(data, Doing::Restore),
        CLEAR => unless_data(data, Doing::Clear),
        _ => Doing::Nack(UNKNOWN),
    }
}

fn unless_data(data: &[u8], bare: Doing) -> Doing
    ensures { result ≡ unless_data «data».now bare }
{
    if data.is_empty() {
        bare
    } else {
        Doing::Nack(DATA)
    }
}

fn unless_none(waiting: usize, some: Doing) -> Doing
    ensures { result ≡ unless_none waiting some }
{
    if waiting == 0 {
        Doing::Nack(NOTHING)
    } else {
        some
    }
}

// How many of the held entries wait after it.
pub(crate) fn waiting_after(held: usize, waiting: usize, doing: Doing) -> usize
    ensures { result ≡ waiting_after held waiting doing }
{
    match doing {
        Doing::Read | Doing::Nack(_) => waiting,
        Doing::Delete => waiting.saturating_sub(1),
        Doing::Restore => held,
        Doing::Clear => 0,
    }
}
