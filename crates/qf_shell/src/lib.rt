//! What every command does that reads files and delivers an answer: its files are read in order, each within its limit,
//! and what is due is delivered, first the files that are put, then the line that is said.
#![tactic(auto)]

mod answer;
mod delivery;
mod files;

pub use answer::{Answer, refusal_answer};
pub use delivery::{deliver, deliver_end};
pub use files::{Input, ReadEnd, read_files};
