// What every crate above stands on: refusals with their numbers, bytes put into a lent buffer, and the lesser of two numbers.
#![tactic(auto)]

mod laying;
mod lesser;
mod refusal;

pub use laying::{put, room};
pub use lesser::least;
pub use refusal::{Refusal, number};
