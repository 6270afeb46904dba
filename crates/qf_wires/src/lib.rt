//! Rows that do not add up, by their circuits: whether cases close a box for them, which moves of single parameters help
//! them, and how many boxes one of them makes by itself.
#![tactic(auto)]

mod demands;
mod pulls;
mod trials;
mod wired;

pub use pulls::{Place, Pulls};
pub use trials::{Next, Trial};
pub use wired::{Way, Wired};
