//! Circuits: definitions over parameters, their values at a point and their hull over a box.
#![tactic(auto)]

mod circuit;
mod hulls;
mod laws;
mod values;

pub use circuit::{Circuit, Def};
pub use laws::{
    hulls_hold, point_hulls_are_values, point_hulls_fit_values, values_are_the_only_ones,
};
