//! Sweeps over a system of inequalities, each with the steps that derive its bounds.
#![tactic(auto)]

mod quiet;
mod row;
mod sweeps;

pub use row::is_empty;
pub use sweeps::{Swept, sweep};
