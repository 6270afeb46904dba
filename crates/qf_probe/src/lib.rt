//! Probes and refutations: whether sweeps close bounds, as they stand or in both cases of a selector, and refutations with
//! nested cases.
#![tactic(auto)]

mod close;
mod finding;
mod probes;
mod refuting;
mod replay;
#[cfg(test)]
mod tests;

pub use probes::probe;
pub use refuting::refute;
