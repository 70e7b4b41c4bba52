// A tape's bytes in, its report out: fresh totals, the bytes chunk by chunk, the report, and its rows.
#![tactic(auto)]

mod chunk;
mod line;
mod split;
mod sweep;

pub use chunk::add;
pub use ends::write_ending;
pub use ledger::{fresh_totals, report};
pub use reel::is_over;
pub use report_rows::{write_sums, write_title};
pub use tape_spec::{Ending, Line};
pub use totals_spec::{LineReport, Report, Sums, Totals};
