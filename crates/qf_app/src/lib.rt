//! The work of the program, over any desk.
#![tactic(auto)]

mod answer;
mod checking;
mod command;
mod diagnosis;
mod laws;
mod parameters;
mod replaying;
mod top;
mod work;

pub use laws::certificates_are_accepted;
pub use top::run;
