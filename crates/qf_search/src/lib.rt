//! The search for the least repair: what one explorer does on a board of boxes (X. Wang, A. Meliou, E. Wu, "QFix:
//! Diagnosing Errors through Query Histories", SIGMOD 2017).
#![tactic(auto)]

mod closing;
mod cutting;
mod deciding;
mod exploring;
mod grounds;
mod laws;
mod refuting;
mod solving;
mod witnesses;

pub use exploring::{Explored, explore};
pub use laws::{boards_keep_repairs, ended_boards_are_alike, ended_boards_have_the_least_repair};
pub use solving::{Found, diagnose, solve};
