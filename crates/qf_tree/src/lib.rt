//! Trees of boxes with their refutations, and certificates.
#![tactic(auto)]

mod cert;
mod laws;
mod line;
mod step;
mod tree;

pub use cert::{Answer, Cert};
pub use laws::{
    bad_lines_are_found, certificates_are_sound, lines_are_refutations, probes_refute,
    refutations_are_sound, regions_are_sound, trees_are_small,
};
pub use line::Line;
pub use step::apply_step;
pub use tree::{Node, Tree};
