// What a tape's report is made of, as types alone: the sums of each line, the totals under way, and the report that ends a tape. What is
// so is in specs/; the crates `ledger`, `report_rows` and `totals` do it.
#![tactic(auto)]

mod totals;

pub use totals::{LineReport, Report, Sums, Totals};
