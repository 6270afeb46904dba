//! The inequalities of a circuit: within its hull over a box, only the circuit's own values satisfy them.
#![tactic(auto)]

mod laws;
mod rows;
mod sums;
mod system;

pub use laws::{circuits_match, definitions_match, systems_are_small, systems_are_well_formed};
pub use system::rows_of;
