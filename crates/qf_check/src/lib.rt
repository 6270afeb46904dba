//! The checker of certificates: it walks once over the lines, computes each of them anew, and searches for nothing.
#![tactic(auto)]

mod boxes;
mod certificate;
mod grounds;
mod refuting;
mod stack;
mod verdict;
mod walk;

pub use certificate::{check, check_in};
pub use verdict::{CheckFault, Verdict};
