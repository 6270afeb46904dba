//! What a search tries next: which rows may refute a box, and where a box is best cut. All of it is advice. Whoever takes it
//! tests it first, and bad advice costs boxes, never an answer.
#![tactic(auto)]

mod choice;
mod cut;
mod guess;
mod guide;
mod hints;
mod known;
mod queue;
mod rows;

pub use guide::Guide;
