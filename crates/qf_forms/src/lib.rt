//! The forms that a user writes beside a table and its log: domains of parameters and complaints about rows.
#![tactic(auto)]

mod complaint;
mod complaints;
mod domains;
mod fault;

pub use complaint::{Complaint, Wish, WishCell};
pub use complaints::read_complaints;
pub use domains::read_domains;
pub use fault::FormFault;
