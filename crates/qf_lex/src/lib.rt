//! The tokens of a log, or its first fault.
#![tactic(auto)]

mod bytes;
mod cut;
mod laws;
mod scan;
mod token;
mod words;

pub use laws::{each_log_has_one_reading, tokens_stand_in_their_log};
pub use scan::tokens;
pub use token::{LexFault, Token, TokenKind};
pub use words::is_reserved;
