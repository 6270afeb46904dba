//! The system of a row: the inequalities of its circuit, and those of its goal.
#![tactic(auto)]

mod system;
mod system_laws;
mod width_laws;

pub use system::system_of;
pub use system_laws::row_systems_are_small;
pub use width_laws::{sound_logs_are_plain, widths_keep_circuits_small};
