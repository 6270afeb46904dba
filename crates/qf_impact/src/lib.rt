//! Which columns, and whether a row lives, can depend on which constants of a log.
#![tactic(auto)]

mod atoms;
mod sets;
mod steps;
mod walk;

pub use qf_ir::agreeing_points_end_alike;
pub use walk::{impact, impacts};
