//! What is to be repaired: the complaints over a program, its table and its domains, the goal of every row, and whether a
//! point repairs.
#![tactic(auto)]

mod aims;
mod asks;
mod checks;
mod fault;
mod goal;
mod marks;
mod problem;
mod seeds;

pub use fault::GoalFault;
pub use problem::Problem;
