// Numbers and bytes as text in a lent buffer.
#![tactic(auto)]

mod decimal;
mod hex;
mod marked;
mod signed;

pub use decimal::put_decimal;
pub use hex::put_pairs;
pub use marked::put_marked;
pub use signed::put_difference;
