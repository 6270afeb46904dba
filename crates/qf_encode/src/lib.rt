//! The circuit of a row and the inequalities that hold of it.
#![tactic(auto)]

mod births;
mod coded;
mod conditions;
mod encode;
mod laws;
mod maker;
mod row;
mod sums;

pub use coded::Coded;
pub use encode::circuit_of;
pub use laws::{
    circuits_follow_births, circuits_follow_lives, goals_are_encoded, rows_are_encoded,
    rows_have_circuits, systems_match, typed_names_exist,
};
