//! A log: its statements over its own names and texts, and where its constants stand.
#![tactic(auto)]

mod laws;
mod lexing;
mod lowering;
mod parsing;
mod places;
mod words;

pub use laws::{logs_are_ready, lowered_sums_keep_their_value, places_spell_their_constants};
pub use parsing::{Log, parse};
pub use places::ParamPlace;
pub use qf_grammar::LogFault;
