// The check values: the FCS of the point line, the sum of the addressed line, and whether a content's check is right.
#![tactic(auto)]

mod kind;
mod register;
mod table;
mod total;

pub use kind::{Check, check_length, is_right};
pub use register::{fcs, residue};
pub use total::sum;
