//! A log with other constants.
#![tactic(auto)]

mod laws;
mod splice;

pub use laws::{repaired_logs_say_the_same, unchanged_logs_stay};
pub use splice::repaired;
