//! The statements of a log, from its lexemes.
#![tactic(auto)]

mod compares;
mod conditions;
mod fault;
mod forms;
mod judging;
mod keywords;
mod laws;
mod lexeme;
mod sums;
mod tree;
mod uses;

pub use fault::LogFault;
pub use judging::{Stated, read_form, statements};
pub use laws::{forms_are_spelled, statements_are_stated};
pub use lexeme::{Key, Lexeme, Mark};
pub use tree::{Assign, Compare, Condition, Factor, Form, Item, Relation, Several, Side, Term};
pub use uses::Use;
