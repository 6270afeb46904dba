//! Where the parameters of a row may move: heuristics for a search, which tests what they suggest. They are safe and total,
//! and have no other contract.
#![tactic(auto)]

mod moves;
mod seeking;
mod sums;

pub use moves::{Move, Sight};
pub use seeking::Finds;
