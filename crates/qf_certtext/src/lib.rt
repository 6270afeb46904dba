//! The text of certificates, read and written.
#![tactic(auto)]

mod draft;
mod fault;
mod laws;
mod lines;
mod reading;
mod words;
mod writing;

pub use draft::Draft;
pub use fault::CertFault;
pub use laws::{lines_are_accepted, readings_are_one, spellings_do_not_go_on};
pub use lines::read_line;
pub use reading::read;
pub use writing::{write, write_line};
