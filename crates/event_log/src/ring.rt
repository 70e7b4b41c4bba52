// The ring of bodies: an empty log, a new entry by value, and the oldest that waits.
ghost use Rattle.std.specs.Prelude.{◌≡◌, false, cond, eqb, ◌≤◌, ◌<◌};
ghost use Rattle.request_spec.specs.Header.{low_first};
ghost use Rattle.event_log_spec.specs.Limits.{most_held};
ghost use Rattle.event_log_spec.specs.Log.{empty_log, bad_log, body_start, place_of, identifier_before, oldest_waiting};
ghost use Rattle.event_log_spec.specs.Appending.{one_more, with_entry, appended_as, appended_to};

use event_log_spec::{BODY_LENGTH, ENTRY_LENGTH, Log, MOST_HELD, RING_LENGTH};
use ground::Refusal;

// A log that holds nothing; its first entry has the identifier 0.
pub fn empty_log() -> Log
    ensures { result ≡ empty_log }
{
    Log {
        bodies: [0u8; RING_LENGTH],
        start: 0,
        held: 0,
        waiting: 0,
        next: 0,
    }
}

// Whether more than 128 are held, more wait than are held, or the start is outside the ring.
pub(crate) fn is_bad(log: &Log) -> bool
    ensures { result ≡ bad_log log.now }
{
    log.held > MOST_HELD || log.waiting > log.held || log.start >= MOST_HELD
}

// The log with a new entry, which waits; a full one drops the oldest. Refuses a bad log (BadState).
#[tactic(auto, unfolding(event_log_spec::specs::Appending::appended_to))]
pub(crate) fn appended(log: Log, body: [u8; BODY_LENGTH]) -> Result<Log, Refusal>
    ensures { appended_as log result ≡ appended_to log body }
{
    if is_bad(&log) {
        return Err(Refusal::BadState);
    }
    Ok(with_entry(log, body))
}

// The same of a good log.
fn with_entry(log: Log, body: [u8; BODY_LENGTH]) -> Log
    requires { bad_log log ≡ false }
    ensures { result ≡ with_entry log body }
{
    let mut bodies = log.bodies;
    let at = body_start(&log, log.held);
    bodies[at..at + BODY_LENGTH].copy_from_slice(&body);
    Log {
        bodies,
        start: start_after(&log),
        held: one_more(log.held),
        waiting: one_more(log.waiting),
        next: log.next.wrapping_add(1),
    }
}

// Where the body begins of the entry than which so many held ones are older.
fn body_start(log: &Log, older: usize) -> usize
    requires { (log.now.start < most_held) × (older ≤ most_held) }
    ensures { result ≡ body_start (place_of log.now older) }
{
    BODY_LENGTH * ((log.start + older) % MOST_HELD)
}

// The place of the oldest after one more: in a full log the next place.
fn start_after(log: &Log) -> usize
    requires { log.now.start < most_held }
    ensures { result ≡ cond (eqb log.now.held most_held) (place_of log.now 1) log.now.start }
{
    if log.held == MOST_HELD {
        (log.start + 1) % MOST_HELD
    } else {
        log.start
    }
}

// One more, of which the log holds the last 128.
fn one_more(count: usize) -> usize
    requires { count ≤ most_held }
    ensures { result ≡ one_more count }
{
    MOST_HELD.min(count + 1)
}

// The identifier and the body of the oldest waiting entry.
pub(crate) fn oldest_waiting(log: &Log) -> [u8; ENTRY_LENGTH]
    requires { bad_log log.now ≡ false }
    ensures { result ≡ oldest_waiting log.now }
{
    let at = body_start(log, log.held - log.waiting);
    let mut entry = [0u8; ENTRY_LENGTH];
    entry[..4].copy_from_slice(&identifier_before(log.next, log.waiting));
    entry[4..].copy_from_slice(&log.bodies[at..at + BODY_LENGTH]);
    entry
}

// The identifier that is so many before the next one, low byte first.
#[tactic(auto, unfolding(event_log_spec::specs::Log::identifier_before))]
fn identifier_before(next: u32, count: usize) -> [u8; 4]
    requires { count ≤ most_held }
    ensures { result ≡ low_first (identifier_before next count) }
{
    next.wrapping_sub(count as u32).to_le_bytes()
}
