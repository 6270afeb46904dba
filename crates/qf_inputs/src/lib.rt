//! What the files of a command say together, or their first refusal.
#![tactic(auto)]

mod domains;
mod inputs;
mod laws;
mod opened;
mod refusal;
mod story;

pub use domains::widths_within;
pub use inputs::{Inputs, read_inputs};
pub use laws::{
    each_has_a_question, each_has_a_story, inputs_are_one, questions_are_one, stories_are_one,
};
pub use opened::{Opened, read_question};
pub use story::{Story, read_story};
