// How far an input is read, and when a notice of that is due. `clock` is what a clock shows that counts whole seconds, from anywhere.
ghost use Rattle.std.specs.Prelude.{◌≡◌};
ghost use Rattle.progress.specs.Progress.{fresh_progress, after_block, is_due, after_notice, seconds as seconds_of};

// Whether notices are wanted, whether one stands on the terminal, how many bytes are read, and what the clock shows when the next notice is due.
#[derive(Clone, Copy, Debug, PartialEq, Eq)]
pub struct Progress {
    pub wanted: bool,
    pub shown: bool,
    pub read: u64,
    pub due: u64,
}

// The least difference of two whole seconds between which more than two have passed.
const FIRST: u64 = 3;

// Seconds from one notice to the next.
const PAUSE: u64 = 1;

// Nothing is read yet.
#[tactic(auto, unfolding(crate::specs::Progress::capped))]
pub fn fresh_progress(wanted: bool, clock: u64) -> Progress
    ensures { result ≡ fresh_progress wanted clock }
{
    Progress {
        wanted,
        shown: false,
        read: 0,
        due: clock.saturating_add(FIRST),
    }
}

// With `count` bytes more that are read.
#[tactic(auto, unfolding(crate::specs::Progress::capped))]
pub fn after_block(progress: Progress, count: usize) -> Progress
    ensures { result ≡ after_block progress count }
{
    Progress {
        read: progress.read.saturating_add(count as u64),
        ..progress
    }
}

// Whether a notice is to be written now.
pub fn is_due(progress: Progress, clock: u64) -> bool
    ensures { result ≡ is_due progress clock }
{
    progress.wanted && progress.due <= clock
}

// With a notice that was written now.
#[tactic(auto, unfolding(crate::specs::Progress::capped))]
pub fn after_notice(progress: Progress, clock: u64) -> Progress
    ensures { result ≡ after_notice progress clock }
{
    Progress {
        shown: true,
        due: clock.saturating_add(PAUSE),
        ..progress
    }
}

// The time, of the whole seconds that a clock answers; 0 where that is below zero.
pub fn seconds(answer: i64) -> u64
    ensures { result ≡ seconds_of answer }
{
    u64::try_from(answer).unwrap_or(0)
}
